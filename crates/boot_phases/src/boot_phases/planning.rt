//! The entries of a phase, each before the next.

ghost use Rattle.std.specs.Prelude.{◌≡◌, Some, None, map, slice_get, slice_index_or, slice_set, IfOk};
ghost use Rattle.std.specs.List.{filter_map};
ghost use Rattle.hive_model.specs.Valid.{HoldsKeys};
ghost use Rattle.start_model.specs.Order.{ordered_of, plan_of};
ghost use Rattle.boot_phases.specs.boot_phases.Phases.{phase_in};
ghost use Rattle.boot_phases.specs.boot_phases.Apart.{StandApart};
ghost use Rattle.boot_phases.specs.boot_phases.Lists.{plan_among, ranks_among};

use crate::boot_phases::phase::{Phase, tags_count};
use crate::boot_phases::rank::{Rank, in_order, ranks_at};
use crate::boot_phases::taken::taken;
use crate::boot_phases::tried::TriedNames;
use crate::group_order::{Orders, read_orders};
use crate::service_entries::{Entries, Entry, ServiceTable, entries};
use nt_bytes::Units;
use reg_tree::Key;
use std::alloc::{AllocError, Global};

/// What a phase takes of a control set, in its order. `tried` has the names that were tried before in this
/// start, which are not taken again. Where all phases are over nothing is read.
pub fn plan(alloc: Global, set: &Key, phase: Phase, tried: &[Units]) -> Result<Entries, AllocError>
    requires { HoldsKeys set.now }
    ensures { IfOk result (λ p. p ≡ plan_of set.now (phase_in phase) tried.now) }
{
    match phase {
        Phase::Done => Ok(Entries::new(alloc)),
        Phase::Boot | Phase::System | Phase::Automatic => plan_phase(alloc, set, phase, tried),
    }
}

/// What a phase takes, by table, orders and names that were read.
fn plan_phase(
    alloc: Global,
    set: &Key,
    phase: Phase,
    tried: &[Units],
) -> Result<Entries, AllocError>
    requires { HoldsKeys set.now }
    ensures { IfOk result (λ p. p ≡ plan_of set.now (phase_in phase) tried.now) }
{
    let table = entries(alloc, set)?;
    let orders = read_orders(alloc, set)?;
    let ranks = ranked(alloc, &table, &orders, phase, tried)?;
    entries_at(alloc, table, ranks.as_slice())
}

/// What a phase takes of these, each entry copied.
pub(crate) fn plan_copied(
    alloc: Global,
    table: &ServiceTable,
    orders: &Orders,
    phase: Phase,
    tried: &[Units],
) -> Result<Entries, AllocError>
    ensures { IfOk result (λ p. p ≡ plan_among (record { entries = table.now; orders = orders.now }) (phase_in phase) tried.now) }
{
    let ranks = ranked(alloc, table, orders, phase, tried)?;
    copies_at(alloc, table, ranks.as_slice())
}

/// The ranks of what a phase takes, in their order.
fn ranked(
    alloc: Global,
    table: &ServiceTable,
    orders: &Orders,
    phase: Phase,
    tried: &[Units],
) -> Result<Vec<Rank>, AllocError>
    ensures { IfOk result (λ r. r.items ≡ ordered_of (ranks_among (record { entries = table.now; orders = orders.now }) (phase_in phase) tried.now)) }
{
    let tried = TriedNames::new(alloc, tried)?;
    let places = taken(alloc, table, phase, &tried)?;
    let mut ranks = ranks_at(alloc, table, orders, tags_count(phase), places.as_slice())?;
    in_order(&mut ranks);
    Ok(ranks)
}

/// A copy of the entry of each of these ranks.
fn copies_at(alloc: Global, table: &ServiceTable, ranks: &[Rank]) -> Result<Entries, AllocError>
    ensures { IfOk result (λ e. e ≡ filter_map (λ r. slice_get table.now r.place) ranks.now) }
{
    let mut copies = Entries::new(alloc);
    for rank in ranks {
        if let Some(entry) = table.get(rank.place) {
            copies.push(entry.copy(alloc)?)?;
        }
    }
    Ok(copies)
}

/// The entries of these ranks, each moved out of its place.
fn entries_at(alloc: Global, table: ServiceTable, ranks: &[Rank]) -> Result<Entries, AllocError>
    requires { StandApart ranks.now }
    ensures { IfOk result (λ e. e ≡ filter_map (λ r. slice_get table r.place) ranks.now) }
{
    let mut slots = slots_of(alloc, table)?;
    let mut entries = Entries::new(alloc);
    for rank in ranks {
        if let Some(entry) = take_at(&mut slots, rank.place as usize) {
            entries.push(entry)?;
        }
    }
    Ok(entries)
}

/// The entries of a table, each in a slot that it can be taken from.
fn slots_of(alloc: Global, table: ServiceTable) -> Result<Vec<Option<Entry>>, AllocError>
    ensures { IfOk result (λ s. s.items ≡ map (λ e. Some e) table) }
{
    let entries = table.into_entries(alloc)?;
    entries.into_vec().into_iter().map(Some).collect(alloc)
}

/// Takes what is in a slot, and leaves it empty.
fn take_at(slots: &mut Vec<Option<Entry>>, place: usize) -> Option<Entry>
    ensures taken { result ≡ slice_index_or slots.old.items place None }
    ensures left { slots.new.items ≡ slice_set slots.old.items place None }
{
    if place < slots.len() {
        slots[place].take()
    } else {
        None
    }
}
