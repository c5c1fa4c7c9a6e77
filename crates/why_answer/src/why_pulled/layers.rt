//! In which layer an entry of a plan is.

ghost use Rattle.std.specs.Prelude.{◌≡◌, ◌+◌, ◌++◌, [], nat_eq, slice_get, position, IfOk, OnOk};
ghost use Rattle.std.specs.Option.{option_to_list};
ghost use Rattle.std.specs.List.{filter_map};
ghost use Rattle.indexmap.specs.IndexSet.{insert_all};
ghost use Rattle.why_answer.specs.why_pulled.Layers.{start_at, demand_place, next_of, first_layer, widened, layer_at, next_layer, layered, layers_of, layer_of};

use crate::why_pulled::namers::{push_many, services_at};
use boot_phases::service_entries::Entry;
use indexmap::IndexSet;
use nt_bytes::{Row, Units};
use std::alloc::{AllocError, Global};
use std::marker::Model;
use why_needs::why_state::PhaseView;

/// The places that are found, with their layers.
#[derive(Drop)]
pub struct Layers {
    pub places: IndexSet<usize>,
    /// The number of each one's layer.
    pub layers: Row<usize>,
}

impl Model for Layers {
    ghost use Rattle.why_answer.specs.why_pulled.Layers.{Found as Item};

    ghost Value = { Item };

    ghost view = { λ a. record { places = a.places.keys; layers = a.layers } };
}

// ---- what an entry names

/// The place, where its entry has this Start.
fn start_at(plan: &[Entry], start: u32, place: usize) -> Option<usize>
    ensures { result ≡ start_at plan.now start place }
{
    match plan.get(place) {
        Some(entry) => if entry.start == start {
            Some(place)
        } else {
            None
        },
        None => None,
    }
}

/// The entry of Start 3 that has the name.
fn demand_place(view: &PhaseView, name: &[u16]) -> Option<usize>
    ensures { result ≡ demand_place view.now name.now }
{
    match view.names.place_of(name) {
        Some(place) => start_at(view.plan.as_slice(), 3, place),
        None => None,
    }
}

fn push_demand(view: &PhaseView, name: &Units, out: &mut Row<usize>) -> Result<(), AllocError>
    ensures { OnOk result (out.new ≡ out.old ++ option_to_list (demand_place view.now name.now)) }
{
    match demand_place(view, name.as_slice()) {
        Some(place) => out.push(place),
        None => Ok(()),
    }
}

/// The entries of Start 3 that have these names.
fn demanded(alloc: Global, view: &PhaseView, names: &[Units]) -> Result<Row<usize>, AllocError>
    ensures { IfOk result (λ out. out ≡ filter_map (demand_place view.now) names.now) }
{
    let mut out = Row::new(alloc);
    for name in names {
        push_demand(view, name, &mut out)?;
    }
    Ok(out)
}

/// Those that the entry at a place names.
fn next_of(alloc: Global, view: &PhaseView, place: usize) -> Result<Row<usize>, AllocError>
    ensures { IfOk result (λ out. out ≡ next_of view.now place) }
{
    demanded(alloc, view, services_at(view.plan.as_slice(), place))
}

fn push_first(view: &PhaseView, place: usize, out: &mut Row<usize>) -> Result<(), AllocError>
    ensures { OnOk result (out.new ≡ out.old ++ option_to_list (start_at view.now.plan 2 place)) }
{
    match start_at(view.plan.as_slice(), 2, place) {
        Some(place) => out.push(place),
        None => Ok(()),
    }
}

/// The entries of Start 2.
fn first_layer(alloc: Global, view: &PhaseView) -> Result<Row<usize>, AllocError>
    ensures { IfOk result (λ out. out ≡ first_layer view.now) }
{
    let mut out = Row::new(alloc);
    for place in 0..view.plan.len() {
        push_first(view, place, &mut out)?;
    }
    Ok(out)
}

// ---- one layer after the other

/// Puts those after the others that are not there.
fn put_all(numbers: &[usize], found: &mut IndexSet<usize>) -> Result<(), AllocError>
    ensures { OnOk result (found.new.keys ≡ insert_all nat_eq found.old.keys numbers.now) }
{
    let mut rest = numbers;
    'number: loop {
        let [number, more @ ..] = rest else {
            return Ok(());
        };
        found.insert(*number)?;
        rest = more;
    }
}

/// Those of these places that are new are in this layer.
fn widen(next: &[usize], layer: usize, found: &mut Layers) -> Result<(), AllocError>
    ensures { OnOk result (found.new ≡ widened next.now layer found.old) }
{
    let before = found.places.len();
    put_all(next, &mut found.places)?;
    let count = found.places.len().saturating_sub(before);
    push_many(count, layer, &mut found.layers)
}

/// The next number.
fn after(number: usize) -> Result<usize, AllocError>
    ensures { IfOk result (λ n. n ≡ number + 1) }
{
    match number.checked_add(1) {
        Some(next) => Ok(next),
        None => Err(AllocError),
    }
}

/// The layer of the place found as the one of this number.
fn layer_at(found: &Layers, at: usize) -> usize
    ensures { result ≡ layer_at found.now at }
{
    match found.layers.get(at) {
        Some(layer) => *layer,
        None => 0,
    }
}

/// The number of the next layer.
fn next_layer(found: &Layers, at: usize) -> Result<usize, AllocError>
    ensures { IfOk result (λ n. n ≡ next_layer found.now at) }
{
    after(layer_at(found, at))
}

/// Looks at an entry, found as the one of this number: what it names is found.
fn look_at(
    alloc: Global,
    view: &PhaseView,
    place: usize,
    at: usize,
    found: &mut Layers,
) -> Result<(), AllocError>
    ensures { OnOk result (found.new ≡ widened (next_of view.now place) (next_layer found.old at) found.old) }
{
    let layer = next_layer(found, at)?;
    let next = next_of(alloc, view, place)?;
    widen(next.as_slice(), layer, found)
}

/// The place found as the one of this number.
fn place_at(found: &Layers, at: usize) -> Option<usize>
    ensures { result ≡ slice_get found.now.places at }
{
    found.places.get_index(at).copied()
}

/// Looks at that many entries more, from the first one of the found on.
fn look_on(
    alloc: Global,
    view: &PhaseView,
    most: usize,
    found: &mut Layers,
) -> Result<(), AllocError>
    ensures { OnOk result (found.new ≡ layered (next_of view.now) most 0 found.old) }
{
    let mut left = most;
    let mut at: usize = 0;
    'place: while left != 0 {
        match place_at(found, at) {
            Some(place) => look_at(alloc, view, place, at, found)?,
            None => return Ok(()),
        }
        let next = after(at)?;
        left -= 1;
        at = next;
    }
    Ok(())
}

/// The entries of Start 2 alone.
fn begun(alloc: Global, view: &PhaseView) -> Result<Layers, AllocError>
    ensures { IfOk result (λ found. found ≡ widened (first_layer view.now) 0 (record { places = []; layers = [] })) }
{
    let first = first_layer(alloc, view)?;
    let mut found = Layers {
        places: IndexSet::new(alloc),
        layers: Row::new(alloc),
    };
    widen(first.as_slice(), 0, &mut found)?;
    Ok(found)
}

/// The entries that are found, with their layers.
pub(crate) fn layers_of(alloc: Global, view: &PhaseView) -> Result<Layers, AllocError>
    ensures { IfOk result (λ found. found ≡ layers_of view.now) }
{
    let mut found = begun(alloc, view)?;
    look_on(alloc, view, view.plan.len(), &mut found)?;
    Ok(found)
}

/// Which of the found a place is.
fn index_of(places: &IndexSet<usize>, place: usize) -> Option<usize>
    ensures { result ≡ position (nat_eq place) places.now.keys }
{
    places.get_index_of(&place)
}

/// The layer of a place.
pub(crate) fn layer_of(found: &Layers, place: usize) -> Option<usize>
    ensures { result ≡ layer_of found.now place }
{
    match index_of(&found.places, place) {
        Some(at) => found.layers.get(at).copied(),
        None => None,
    }
}
