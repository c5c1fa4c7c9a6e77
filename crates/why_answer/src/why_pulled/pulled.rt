//! The lines of those that pull an entry.

ghost use Rattle.std.specs.Prelude.{◌≡◌, ◌++◌, find, IfOk, OnOk};
ghost use Rattle.std.specs.Option.{option_to_list};
ghost use Rattle.std.specs.List.{filter_map};
ghost use Rattle.why_answer.specs.why_pulled.Namers.{who_names};
ghost use Rattle.why_answer.specs.why_pulled.Pulled.{is_before, puller_in, puller_of, pullers, puller_line, chain_lines, pulled_lines};

use crate::why_place::SetOrder;
use crate::why_pulled::layers::{Layers, layer_of, layers_of};
use crate::why_pulled::namers::{Namers, namers_of, who_names};
use answer_lines::why_lines::{WhyLine, WhyLines};
use boot_phases::service_entries::Entry;
use nt_bytes::Row;
use std::alloc::{AllocError, Global};
use why_needs::why_state::PhaseView;

/// Whether a place is in the layer before this one.
fn is_before(found: &Layers, layer: usize, place: usize) -> bool
    ensures { result ≡ is_before found.now layer place }
{
    match layer_of(found, place) {
        Some(number) => number < layer && layer - number == 1,
        None => false,
    }
}

/// The first of these that is in the layer before this one.
fn first_before(found: &Layers, layer: usize, places: &[usize]) -> Option<usize>
    ensures { result ≡ find (is_before found.now layer) places.now }
{
    let mut rest = places;
    'place: while let [place, more @ ..] = rest {
        if is_before(found, layer, *place) {
            return Some(*place);
        }
        rest = more;
    }
    None
}

/// The first of the layer before this one that names an entry.
fn puller_by(
    alloc: Global,
    namers: &Namers,
    found: &Layers,
    entry: &Entry,
    layer: usize,
) -> Result<Option<usize>, AllocError>
    ensures { IfOk result (λ p. p ≡ find (is_before found.now layer) (who_names namers.now entry.now.name)) }
{
    let places = who_names(alloc, namers, entry.name.as_slice())?;
    Ok(first_before(found, layer, places.as_slice()))
}

/// The same by the entry's place.
fn puller_in(
    alloc: Global,
    view: &PhaseView,
    namers: &Namers,
    found: &Layers,
    place: usize,
    layer: usize,
) -> Result<Option<usize>, AllocError>
    ensures { IfOk result (λ p. p ≡ puller_in view.now namers.now found.now place layer) }
{
    match view.plan.get(place) {
        Some(entry) => puller_by(alloc, namers, found, entry, layer),
        None => Ok(None),
    }
}

/// Who pulls the entry at a place.
fn puller_of(
    alloc: Global,
    view: &PhaseView,
    namers: &Namers,
    found: &Layers,
    place: usize,
) -> Result<Option<usize>, AllocError>
    ensures { IfOk result (λ p. p ≡ puller_of view.now namers.now found.now place) }
{
    match layer_of(found, place) {
        Some(layer) => puller_in(alloc, view, namers, found, place, layer),
        None => Ok(None),
    }
}

/// Who pulls the entry at a place, who that one, up to one of layer 0; that many at most.
fn pullers(
    alloc: Global,
    view: &PhaseView,
    namers: &Namers,
    found: &Layers,
    most: usize,
    place: usize,
) -> Result<Row<usize>, AllocError>
    ensures { IfOk result (λ out. out ≡ pullers (puller_of view.now namers.now found.now) most place) }
{
    let mut out = Row::new(alloc);
    let mut left = most;
    let mut at = place;
    'place: while left != 0 {
        let pull = puller_of(alloc, view, namers, found, at)?;
        match pull {
            Some(next) => {
                out.push(next)?;
                at = next;
            }
            None => return Ok(out),
        }
        left -= 1;
    }
    Ok(out)
}

/// Puts the line of a place after the others.
fn push_line(
    alloc: Global,
    view: &PhaseView,
    place: usize,
    lines: &mut WhyLines,
) -> Result<(), AllocError>
    ensures { OnOk result (lines.new ≡ lines.old ++ option_to_list (puller_line view.now place)) }
{
    match view.plan.get(place) {
        Some(entry) => lines.push(WhyLine::Pulled(entry.name.copy(alloc)?)),
        None => Ok(()),
    }
}

fn push_lines(
    alloc: Global,
    view: &PhaseView,
    places: &[usize],
    lines: &mut WhyLines,
) -> Result<(), AllocError>
    ensures { OnOk result (lines.new ≡ lines.old ++ filter_map (puller_line view.now) places.now) }
{
    for place in places {
        push_line(alloc, view, *place, lines)?;
    }
    Ok(())
}

/// Puts the lines of all that pull the entry at a place after the others.
fn push_chain(
    alloc: Global,
    order: &SetOrder,
    view: &PhaseView,
    place: usize,
    lines: &mut WhyLines,
) -> Result<(), AllocError>
    ensures { OnOk result (lines.new ≡ lines.old ++ chain_lines order.now view.now place) }
{
    let namers = namers_of(alloc, order, view)?;
    let found = layers_of(alloc, view)?;
    let chain = pullers(alloc, view, &namers, &found, view.plan.len(), place)?;
    push_lines(alloc, view, chain.as_slice(), lines)
}

/// Puts the lines of those that pull the entry at a place after the others: who names it, who names that one, up to one of Start 2. No
/// line where it isn't of Start 3. Takes n log n time in the plan and its needs.
pub fn push_pulled(
    alloc: Global,
    order: &SetOrder,
    view: &PhaseView,
    place: usize,
    entry: &Entry,
    lines: &mut WhyLines,
) -> Result<(), AllocError>
    ensures { OnOk result (lines.new ≡ lines.old ++ pulled_lines order.now view.now place entry.now) }
{
    if entry.start == 3 {
        return push_chain(alloc, order, view, place, lines);
    }
    Ok(())
}
