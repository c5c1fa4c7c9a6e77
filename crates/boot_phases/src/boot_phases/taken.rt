//! Which entries a phase takes.

ghost use Rattle.std.specs.Prelude.{◌≡◌, false, slice_get, IfOk};
ghost use Rattle.std.specs.List.{filter_map};
ghost use Rattle.std.specs.Option.{option_map_or};
ghost use Rattle.start_model.specs.Entries.{is_driver_of, is_open, automatic_among, need_of, places_of, taken_of};
ghost use Rattle.boot_phases.specs.boot_phases.Phases.{phase_in};

use crate::boot_phases::kind::is_driver;
use crate::boot_phases::phase::Phase;
use crate::boot_phases::tried::TriedNames;
use crate::boot_phases::untried::Untried;
use crate::service_entries::{Entry, ServiceTable};
use dependencies::{Need, Places, automatic_in};
use nt_bytes::Units;
use std::alloc::{AllocError, Global};

/// The places of the entries that a phase takes, rising.
pub(crate) fn taken(
    alloc: Global,
    table: &ServiceTable,
    phase: Phase,
    tried: &TriedNames,
) -> Result<Places, AllocError>
    ensures { IfOk result (λ p. p ≡ taken_of table.now (phase_in phase) tried.now) }
{
    match phase {
        Phase::Boot => drivers(alloc, table, 0, tried),
        Phase::System => drivers(alloc, table, 1, tried),
        Phase::Automatic => automatic_places(alloc, table, tried),
        Phase::Done => Ok(Places::new(alloc)),
    }
}

// ---- drivers

/// The places of the untried drivers of this Start.
fn drivers(
    alloc: Global,
    table: &ServiceTable,
    start: u32,
    tried: &TriedNames,
) -> Result<Places, AllocError>
    ensures { IfOk result (λ p. p ≡ places_of (is_driver_of start tried.now) table.now) }
{
    let mut places = Places::new(alloc);
    for place in 0..table.len() {
        if is_driver_at(table, place as u32, start, tried) {
            places.push(place as u32)?;
        }
    }
    Ok(places)
}

fn is_driver_at(table: &ServiceTable, place: u32, start: u32, tried: &TriedNames) -> bool
    ensures { result ≡ option_map_or (is_driver_of start tried.now) (slice_get table.now place) false }
{
    table
        .get(place)
        .is_some_and(|entry| is_driver_of(entry, start, tried))
}

fn is_driver_of(entry: &Entry, start: u32, tried: &TriedNames) -> bool
    ensures { result ≡ is_driver_of start tried.now entry.now }
{
    is_driver(entry.kind) && entry.start == start && !tried.has(entry)
}

// ---- the automatic phase

/// The places of the entries that the automatic phase takes.
fn automatic_places(
    alloc: Global,
    table: &ServiceTable,
    tried: &TriedNames,
) -> Result<Places, AllocError>
    ensures { IfOk result (λ p. p ≡ automatic_among table.now (places_of (is_open tried.now) table.now)) }
{
    let untried = Untried::new(alloc, table, tried)?;
    let places = untried.in_table();
    let taken = automatic_in(alloc, &untried)?;
    chosen(alloc, places, taken.as_slice())
}

/// What an entry needs. Of the entry nothing else is copied.
pub fn need_of(alloc: Global, entry: &Entry) -> Result<Need, AllocError>
    ensures { IfOk result (λ n. n ≡ need_of entry.now) }
{
    Ok(Need {
        name: entry.name.copy(alloc)?,
        start: entry.start,
        group: group_of(alloc, entry)?,
        services: entry.services.copy(alloc)?,
        groups: entry.groups.copy(alloc)?,
    })
}

fn group_of(alloc: Global, entry: &Entry) -> Result<Option<Units>, AllocError>
    ensures { IfOk result (λ g. g ≡ entry.now.group) }
{
    match &entry.group {
        Some(name) => Ok(Some(name.copy(alloc)?)),
        None => Ok(None),
    }
}

/// The places that are at these indices of a list of places.
fn chosen(alloc: Global, places: &[u32], indices: &[u32]) -> Result<Places, AllocError>
    ensures { IfOk result (λ p. p ≡ filter_map (slice_get places.now) indices.now) }
{
    let mut chosen = Places::new(alloc);
    for index in indices {
        if let Some(place) = place_at(places, *index) {
            chosen.push(place)?;
        }
    }
    Ok(chosen)
}

fn place_at(places: &[u32], index: u32) -> Option<u32>
    ensures { result ≡ slice_get places.now index }
{
    places.get(index as usize).copied()
}
