//! The lines of entries.

ghost use Rattle.std.specs.Prelude.{◌≡◌, ◌<◌, ◌++◌, [], map, length, slice_get, IfOk, OnOk};
ghost use Rattle.std.specs.Option.{option_copied, option_map_or};
ghost use Rattle.why_lacks.specs.why_lacks.Lacks.{of_entry, key_at, keys_of, all_keys, entry_lines, entries_from, lack_lines};
ghost use Rattle.why_lacks.specs.why_items.Items.{lacks_groups};

use crate::why_items::{NeedsRun, lacks_groups, lacks_services, places_of};
use crate::why_lacks::groups::{key_at, push_groups};
use crate::why_lacks::names::push_services;
use answer_lines::why_lines::{WhyLine, WhyLines};
use boot_phases::service_entries::Entry;
use nt_bytes::{Names, Units};
use nt_names::name_places::NamePlaces;
use std::alloc::{AllocError, Global};
use why_needs::why_state::PhaseView;

/// Puts the groups after the others, each with the place of the phase.
fn push_group_keys(
    alloc: Global,
    at: usize,
    groups: &[Units],
    keys: &mut Names,
) -> Result<(), AllocError>
    ensures { OnOk result (keys.new ≡ keys.old ++ map (key_at at) groups.now) }
{
    for group in groups {
        keys.push(key_at(alloc, at, group)?)?;
    }
    Ok(())
}

/// Puts the lacking groups of an entry after the others so.
fn push_keys_by(
    alloc: Global,
    needs: &NeedsRun,
    at: usize,
    view: &PhaseView,
    entry: Option<&Entry>,
    keys: &mut Names,
) -> Result<(), AllocError>
    ensures { OnOk result (keys.new ≡ keys.old ++ option_map_or (λ e. map (key_at at) (lacks_groups needs.now view.now e)) (option_copied entry.entry) []) }
{
    match entry {
        Some(entry) => {
            let groups = lacks_groups(alloc, needs, view, entry)?;
            push_group_keys(alloc, at, groups.as_slice(), keys)
        }
        None => Ok(()),
    }
}

fn push_keys_at(
    alloc: Global,
    needs: &NeedsRun,
    place: (usize, usize),
    keys: &mut Names,
) -> Result<(), AllocError>
    ensures { OnOk result (keys.new ≡ keys.old ++ option_map_or (λ v. option_map_or (λ e. map (key_at place.0) (lacks_groups needs.now v e))
        (slice_get v.plan place.1) []) (slice_get needs.now.run.views place.0) []) }
{
    match needs.run.views.get(place.0) {
        Some(view) => push_keys_by(alloc, needs, place.0, view, view.plan.get(place.1), keys),
        None => Ok(()),
    }
}

/// The same by the entry's number.
fn push_keys(
    alloc: Global,
    needs: &NeedsRun,
    number: usize,
    keys: &mut Names,
) -> Result<(), AllocError>
    ensures { OnOk result (keys.new ≡ keys.old ++ keys_of needs.now number) }
{
    match places_of(&needs.run, number) {
        Some(place) => push_keys_at(alloc, needs, place, keys),
        None => Ok(()),
    }
}

/// How many groups an entry lacks.
fn key_count(alloc: Global, needs: &NeedsRun, number: usize) -> Result<usize, AllocError>
    ensures { IfOk result (λ n. n ≡ length (keys_of needs.now number)) }
{
    let mut keys = Names::new(alloc);
    push_keys(alloc, needs, number, &mut keys)?;
    Ok(keys.len())
}

/// The lacking groups of these entries, each with the place of its phase.
fn all_keys(alloc: Global, needs: &NeedsRun, numbers: &[usize]) -> Result<Names, AllocError>
    ensures { IfOk result (λ keys. keys ≡ all_keys needs.now numbers.now) }
{
    let mut keys = Names::new(alloc);
    for number in numbers {
        push_keys(alloc, needs, *number, &mut keys)?;
    }
    Ok(keys)
}

/// Puts the lines of an entry after the others, whose first group is that at a place of all.
fn push_entry(
    alloc: Global,
    needs: &NeedsRun,
    keys: &NamePlaces,
    k: usize,
    at: usize,
    view: &PhaseView,
    entry: &Entry,
    lines: &mut WhyLines,
) -> Result<(), AllocError>
    requires { at < length needs.now.run.views }
    ensures { OnOk result (lines.new ≡ lines.old ++ entry_lines needs.now keys.now k at view.now entry.now) }
{
    lines.push(WhyLine::Unmet {
        phase: view.phase,
        name: entry.name.copy(alloc)?,
    })?;
    let services = lacks_services(alloc, needs, view, entry)?;
    push_services(alloc, needs, at, view, services.as_slice(), lines)?;
    let groups = lacks_groups(alloc, needs, view, entry)?;
    push_groups(alloc, needs, keys, at, view, k, groups.as_slice(), lines)
}

fn push_entry_by(
    alloc: Global,
    needs: &NeedsRun,
    keys: &NamePlaces,
    k: usize,
    at: usize,
    view: &PhaseView,
    entry: Option<&Entry>,
    lines: &mut WhyLines,
) -> Result<(), AllocError>
    requires { at < length needs.now.run.views }
    ensures { OnOk result (lines.new ≡ lines.old ++ option_map_or (entry_lines needs.now keys.now k at view.now) (option_copied entry.entry) []) }
{
    match entry {
        Some(entry) => push_entry(alloc, needs, keys, k, at, view, entry, lines),
        None => Ok(()),
    }
}

fn push_entry_at(
    alloc: Global,
    needs: &NeedsRun,
    keys: &NamePlaces,
    k: usize,
    place: (usize, usize),
    lines: &mut WhyLines,
) -> Result<(), AllocError>
    ensures { OnOk result (lines.new ≡ lines.old ++ option_map_or (λ v. option_map_or (entry_lines needs.now keys.now k place.0 v)
        (slice_get v.plan place.1) []) (slice_get needs.now.run.views place.0) []) }
{
    match needs.run.views.get(place.0) {
        Some(view) => push_entry_by(
            alloc,
            needs,
            keys,
            k,
            place.0,
            view,
            view.plan.get(place.1),
            lines,
        ),
        None => Ok(()),
    }
}

/// The same by the entry's number.
fn push_number(
    alloc: Global,
    needs: &NeedsRun,
    keys: &NamePlaces,
    k: usize,
    number: usize,
    lines: &mut WhyLines,
) -> Result<(), AllocError>
    ensures { OnOk result (lines.new ≡ lines.old ++ of_entry needs.now (entry_lines needs.now keys.now k) number) }
{
    match places_of(&needs.run, number) {
        Some(place) => push_entry_at(alloc, needs, keys, k, place, lines),
        None => Ok(()),
    }
}

/// Puts the lines of entries after the others.
fn push_entries(
    alloc: Global,
    needs: &NeedsRun,
    keys: &NamePlaces,
    numbers: &[usize],
    lines: &mut WhyLines,
) -> Result<(), AllocError>
    ensures { OnOk result (lines.new ≡ lines.old ++ entries_from needs.now keys.now 0 numbers.now) }
{
    let mut rest = numbers;
    let mut k = 0usize;
    'entry: loop {
        let [number, more @ ..] = rest else {
            return Ok(());
        };
        push_number(alloc, needs, keys, k, *number, lines)?;
        let Some(next) = k.checked_add(key_count(alloc, needs, *number)?) else {
            return Err(AllocError);
        };
        k = next;
        rest = more;
    }
}

/// Puts the lines of these entries after the others: each with what it lacked. Takes n log n time in their needs, and in the members of
/// their groups.
#[tactic(auto, unfolding(crate::specs::why_lacks::Lacks::lack_lines))]
pub fn push_lacks(
    alloc: Global,
    needs: &NeedsRun,
    numbers: &[usize],
    lines: &mut WhyLines,
) -> Result<(), AllocError>
    ensures { OnOk result (lines.new ≡ lines.old ++ lack_lines needs.now numbers.now) }
{
    let keys = NamePlaces::new(alloc, all_keys(alloc, needs, numbers)?)?;
    push_entries(alloc, needs, &keys, numbers, lines)
}
