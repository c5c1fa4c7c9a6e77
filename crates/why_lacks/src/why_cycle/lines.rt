//! The lines of a cycle.

ghost use Rattle.std.specs.Prelude.{◌≡◌, ◌∷◌, ◌++◌, [], slice_get, IfOk, OnOk};
ghost use Rattle.std.specs.Option.{option_copied, option_map_or};
ghost use Rattle.std.specs.List.{flat_map};
ghost use Rattle.start_model.specs.Entries.{Entry as Taken};
ghost use Rattle.answer_lines.specs.declared.why_lines.lines.WhyLine.TheVariants.{Cycle};
ghost use Rattle.why_lacks.specs.why_cycle.Cycle.{item_line, place_line, cycle_places, cycle_lines};

use crate::why_cycle::freed::freed;
use crate::why_cycle::shared::shared_rows;
use crate::why_cycle::waits::items_of;
use crate::why_cycle::walk::cycle_of;
use crate::why_items::{NeedsRun, places_of};
use answer_lines::why_lines::{WhyLine, WhyLines};
use boot_phases::service_entries::Entry;
use indexmap::IndexSet;
use nt_bytes::Row;
use std::alloc::{AllocError, Global};

fn push_entry(alloc: Global, entry: Option<&Entry>, lines: &mut WhyLines) -> Result<(), AllocError>
    ensures { OnOk result (lines.new ≡ lines.old ++ option_map_or (λ (e : Taken). Cycle e.name ∷ []) (option_copied entry.entry) []) }
{
    match entry {
        Some(entry) => lines.push(WhyLine::Cycle(entry.name.copy(alloc)?)),
        None => Ok(()),
    }
}

fn push_at(
    alloc: Global,
    needs: &NeedsRun,
    place: (usize, usize),
    lines: &mut WhyLines,
) -> Result<(), AllocError>
    ensures { OnOk result (lines.new ≡ lines.old ++ option_map_or (λ v. option_map_or (λ (e : Taken). Cycle e.name ∷ [])
        (slice_get v.plan place.1) []) (slice_get needs.now.run.views place.0) []) }
{
    match needs.run.views.get(place.0) {
        Some(view) => push_entry(alloc, view.plan.get(place.1), lines),
        None => Ok(()),
    }
}

/// Puts the line of an item after the others.
fn push_item(
    alloc: Global,
    needs: &NeedsRun,
    number: usize,
    lines: &mut WhyLines,
) -> Result<(), AllocError>
    ensures { OnOk result (lines.new ≡ lines.old ++ item_line needs.now number) }
{
    match places_of(&needs.run, number) {
        Some(place) => push_at(alloc, needs, place, lines),
        None => Ok(()),
    }
}

/// The same by the item's place.
fn push_place(
    alloc: Global,
    needs: &NeedsRun,
    items: &IndexSet<usize>,
    place: usize,
    lines: &mut WhyLines,
) -> Result<(), AllocError>
    ensures { OnOk result (lines.new ≡ lines.old ++ place_line needs.now items.now.keys place) }
{
    match items.get_index(place).copied() {
        Some(number) => push_item(alloc, needs, number, lines),
        None => Ok(()),
    }
}

/// The same of these.
fn push_places(
    alloc: Global,
    needs: &NeedsRun,
    items: &IndexSet<usize>,
    places: &[usize],
    lines: &mut WhyLines,
) -> Result<(), AllocError>
    ensures { OnOk result (lines.new ≡ lines.old ++ flat_map (place_line needs.now items.now.keys) places.now) }
{
    for place in places {
        push_place(alloc, needs, items, *place, lines)?;
    }
    Ok(())
}

/// The places of the items that a walk from the first one goes round.
fn cycle_places(
    alloc: Global,
    needs: &NeedsRun,
    items: &IndexSet<usize>,
) -> Result<Row<usize>, AllocError>
    ensures { IfOk result (λ places. places ≡ cycle_places needs.now items.now.keys) }
{
    let rows = shared_rows(alloc, needs, items)?;
    let freed = freed(alloc, rows.as_slice(), items.len())?;
    cycle_of(alloc, rows.as_slice(), items.len(), freed.as_slice())
}

/// Puts the lines of the cycle after the others that keeps the first of these entries from its attempt; none where it is freed. The entries are
/// those that `items` finds: the first one, and all that it leads to.
#[tactic(auto, unfolding(crate::specs::why_cycle::Cycle::cycle_lines))]
pub fn push_cycle(
    alloc: Global,
    needs: &NeedsRun,
    numbers: &[usize],
    lines: &mut WhyLines,
) -> Result<(), AllocError>
    ensures { OnOk result (lines.new ≡ lines.old ++ cycle_lines needs.now numbers.now) }
{
    let items = items_of(alloc, numbers)?;
    let places = cycle_places(alloc, needs, &items)?;
    push_places(alloc, needs, &items, places.as_slice(), lines)
}
