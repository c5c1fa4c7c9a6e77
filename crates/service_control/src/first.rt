//! What there is after a start of which each attempt goes well.

ghost use Rattle.std.specs.Prelude.{◌≡◌, map, option_and_then, slice_get, IfOk};
ghost use Rattle.std.specs.List.{filter_map};
ghost use Rattle.hive_model.specs.Valid.{HoldsKeys};
ghost use Rattle.start_model.specs.Entries.{is_service, need_of};
ghost use Rattle.boot_phases.specs.boot_phases.Phases.{phase_in};
ghost use Rattle.service_control.specs.First.{is_controlled, controlled, table_of, after_phase, first_running};

use crate::lists::{append, names, started};
use crate::turns::starts;
use boot_phases::boot_phases::{Phase, need_of, plan};
use boot_phases::service_entries::{Entry, ServiceTable, entries};
use dependencies::{Need, Needs};
use reg_tree::Key;
use std::alloc::{AllocError, Global};

/// The drivers and services of a set, in the order of the registry.
pub(crate) fn table_of(alloc: Global, set: &Key) -> Result<Needs, AllocError>
    requires { HoldsKeys set.now }
    ensures table { IfOk result (λ t. t ≡ table_of set.now) }
{
    let table = entries(alloc, set)?;
    those_controlled(alloc, &table)
}

/// What the drivers and services of these entries need.
fn those_controlled(alloc: Global, table: &ServiceTable) -> Result<Needs, AllocError>
    ensures { IfOk result (λ n. n ≡ filter_map controlled table.now) }
{
    let mut needs = Needs::new(alloc);
    for place in 0..table.len() {
        if let Some(need) = controlled_at(alloc, table, place as u32)? {
            needs.push(need)?;
        }
    }
    Ok(needs)
}

fn controlled_at(
    alloc: Global,
    table: &ServiceTable,
    place: u32,
) -> Result<Option<Need>, AllocError>
    ensures { IfOk result (λ n. n ≡ option_and_then controlled (slice_get table.now place)) }
{
    match table.get(place) {
        Some(entry) => controlled(alloc, entry),
        None => Ok(None),
    }
}

/// What the entry needs, where it is a driver or a service.
fn controlled(alloc: Global, entry: &Entry) -> Result<Option<Need>, AllocError>
    ensures { IfOk result (λ n. n ≡ controlled entry.now) }
{
    if is_controlled(entry.kind) {
        Ok(Some(need_of(alloc, entry)?))
    } else {
        Ok(None)
    }
}

/// Whether this Type is that of a driver, by the bits of 0x0B, or of a service, by those of 0x30.
fn is_controlled(kind: u32) -> bool
    ensures { result ≡ is_controlled kind }
{
    kind & 0x0b != 0 || is_service(kind)
}

fn is_service(kind: u32) -> bool
    ensures { result ≡ is_service kind }
{
    kind & 0x30 != 0 && kind & 0x0b == 0
}

/// What the phases start, in sequence.
pub(crate) fn first_running(alloc: Global, set: &Key) -> Result<Needs, AllocError>
    requires { HoldsKeys set.now }
    ensures { IfOk result (λ n. n ≡ first_running set.now) }
{
    let none = Needs::new(alloc);
    let boot = after_phase(alloc, set, Phase::Boot, none)?;
    let system = after_phase(alloc, set, Phase::System, boot)?;
    after_phase(alloc, set, Phase::Automatic, system)
}

/// What a phase starts stands after the others.
fn after_phase(alloc: Global, set: &Key, phase: Phase, running: Needs) -> Result<Needs, AllocError>
    requires { HoldsKeys set.now }
    ensures { IfOk result (λ n. n ≡ after_phase set.now (phase_in phase) running) }
{
    let tried = names(alloc, running.as_slice())?;
    let entries = plan(alloc, set, phase, tried.as_slice())?;
    let needs = needs_of(alloc, entries.as_slice())?;
    let before = started(alloc, running.as_slice())?;
    let new = starts(alloc, &needs, &before)?;
    let mut all = running;
    append(alloc, &mut all, new.as_slice())?;
    Ok(all)
}

/// What each entry needs.
fn needs_of(alloc: Global, entries: &[Entry]) -> Result<Needs, AllocError>
    ensures { IfOk result (λ n. n ≡ map need_of entries.now) }
{
    let mut needs = Needs::new(alloc);
    for entry in entries {
        needs.push(need_of(alloc, entry)?)?;
    }
    Ok(needs)
}
