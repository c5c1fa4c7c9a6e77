//! Who names whom in a plan, in the order of the registry.

ghost use Rattle.std.specs.Prelude.{◌≡◌, ◌++◌, replicate, slice_get, IfOk, OnOk};
ghost use Rattle.std.specs.Option.{option_to_list};
ghost use Rattle.std.specs.List.{filter_map, flat_map};
ghost use Rattle.why_needs.specs.why_state.States.{place_in};
ghost use Rattle.why_answer.specs.why_pulled.Namers.{services_at, owners_at, namers_of, who_names};

use crate::why_place::SetOrder;
use boot_phases::service_entries::Entry;
use nt_bytes::{Names, Row, Units};
use nt_names::name_places::NamePlaces;
use std::alloc::{AllocError, Global};
use why_needs::why_state::PhaseView;

/// All names that entries of a plan name, each found without a scan.
#[derive(Drop)]
pub struct Namers {
    /// The names, in the registry order of the entries that name them.
    pub names: NamePlaces,
    /// Who names each, by its place in the plan.
    pub places: Row<usize>,
}

/// Puts the place of a name in the plan after the others, where it has one.
fn push_place(names: &NamePlaces, name: &Units, places: &mut Row<usize>) -> Result<(), AllocError>
    ensures { OnOk result (places.new ≡ places.old ++ option_to_list (place_in names.now name.now)) }
{
    match names.place_of(name.as_slice()) {
        Some(place) => places.push(place),
        None => Ok(()),
    }
}

/// The places of the plan's entries, in registry order.
fn registry_places(
    alloc: Global,
    order: &[Units],
    names: &NamePlaces,
) -> Result<Row<usize>, AllocError>
    ensures { IfOk result (λ places. places ≡ filter_map (place_in names.now) order.now) }
{
    let mut places = Row::new(alloc);
    for name in order {
        push_place(names, name, &mut places)?;
    }
    Ok(places)
}

/// The names that the entry at a place names.
pub(crate) fn services_at(plan: &[Entry], place: usize) -> &[Units]
    ensures { result.now ≡ services_at plan.now place }
{
    match plan.get(place) {
        Some(entry) => entry.services.as_slice(),
        None => &[],
    }
}

/// Puts the names after the others.
fn push_names(alloc: Global, names: &[Units], out: &mut Names) -> Result<(), AllocError>
    ensures { OnOk result (out.new ≡ out.old ++ names.now) }
{
    for name in names {
        out.push(name.copy(alloc)?)?;
    }
    Ok(())
}

fn push_services(
    alloc: Global,
    plan: &[Entry],
    place: usize,
    out: &mut Names,
) -> Result<(), AllocError>
    ensures { OnOk result (out.new ≡ out.old ++ services_at plan.now place) }
{
    push_names(alloc, services_at(plan, place), out)
}

/// Puts that many of a number after the others.
pub(crate) fn push_many(count: usize, number: usize, out: &mut Row<usize>) -> Result<(), AllocError>
    ensures { OnOk result (out.new ≡ out.old ++ replicate count number) }
{
    for _ in 0..count {
        out.push(number)?;
    }
    Ok(())
}

/// Puts the place after the others, once for each name that its entry names.
fn push_owners(plan: &[Entry], place: usize, out: &mut Row<usize>) -> Result<(), AllocError>
    ensures { OnOk result (out.new ≡ out.old ++ owners_at plan.now place) }
{
    push_many(services_at(plan, place).len(), place, out)
}

/// All names that these entries name, in their order.
fn all_names(alloc: Global, plan: &[Entry], places: &[usize]) -> Result<Names, AllocError>
    ensures { IfOk result (λ names. names ≡ flat_map (services_at plan.now) places.now) }
{
    let mut names = Names::new(alloc);
    for place in places {
        push_services(alloc, plan, *place, &mut names)?;
    }
    Ok(names)
}

/// Who names each.
fn all_owners(alloc: Global, plan: &[Entry], places: &[usize]) -> Result<Row<usize>, AllocError>
    ensures { IfOk result (λ out. out ≡ flat_map (owners_at plan.now) places.now) }
{
    let mut out = Row::new(alloc);
    for place in places {
        push_owners(plan, *place, &mut out)?;
    }
    Ok(out)
}

/// All names that entries of the plan name, and who names them.
pub(crate) fn namers_of(
    alloc: Global,
    order: &SetOrder,
    view: &PhaseView,
) -> Result<Namers, AllocError>
    ensures { IfOk result (λ namers. namers ≡ namers_of order.now view.now) }
{
    let places = registry_places(alloc, order.names.as_slice(), &view.names)?;
    let names = all_names(alloc, view.plan.as_slice(), places.as_slice())?;
    let owners = all_owners(alloc, view.plan.as_slice(), places.as_slice())?;
    Ok(Namers {
        names: NamePlaces::new(alloc, names)?,
        places: owners,
    })
}

/// The item at a place.
fn owner_at(owners: &Row<usize>, at: usize) -> Option<usize>
    ensures { result ≡ slice_get owners.now at }
{
    owners.get(at).copied()
}

/// Puts the item at a place after the others, where there is one.
fn push_at(owners: &Row<usize>, at: usize, out: &mut Row<usize>) -> Result<(), AllocError>
    ensures { OnOk result (out.new ≡ out.old ++ option_to_list (slice_get owners.now at)) }
{
    match owner_at(owners, at) {
        Some(place) => out.push(place),
        None => Ok(()),
    }
}

/// The items at these places.
fn owners_at(alloc: Global, owners: &Row<usize>, places: &[usize]) -> Result<Row<usize>, AllocError>
    ensures { IfOk result (λ out. out ≡ filter_map (slice_get owners.now) places.now) }
{
    let mut out = Row::new(alloc);
    for at in places {
        push_at(owners, *at, &mut out)?;
    }
    Ok(out)
}

/// Who names a name, in registry order.
pub(crate) fn who_names(
    alloc: Global,
    namers: &Namers,
    name: &[u16],
) -> Result<Row<usize>, AllocError>
    ensures { IfOk result (λ places. places ≡ who_names namers.now name.now) }
{
    owners_at(alloc, &namers.places, namers.names.places(name))
}
