//! What makes a started service lean.

ghost use Rattle.std.specs.Prelude.{◌≡◌, ◌∷◌, ◌++◌, ◌==◌, [], false, length, map, replicate, position, option_and_then, option_map, slice_get, IfOk, OnOk};
ghost use Rattle.std.specs.Option.{option_map_or, option_to_list};
ghost use Rattle.nt_bytes.specs.Folding.{folds_same};
ghost use Rattle.service_control.specs.Causes.{AreCauses, causes_at, causes_of, own_causes, by_name, by_group, group_cause, is_first, key_of, keys_of, names_at};

use crate::lists::copied;
use dependencies::{Need, Needs};
use nt_bytes::{Names, Units};
use nt_names::name_places::NamePlaces;
use std::alloc::{AllocError, Global};
use std::slice::from_ref;

/// The causes of all services, and for each of them the place of its owner.
#[derive(Drop)]
pub(crate) struct CauseList {
    pub(crate) needs: Needs,
    pub(crate) owners: Vec<usize>,
}

/// The causes of the started services. Takes n log n time in them and the names that they give.
pub(crate) fn causes(alloc: Global, running: &[Need]) -> Result<CauseList, AllocError>
    ensures { IfOk result (λ c. AreCauses running.now (length running.now) c.needs c.owners.items) }
{
    let keys = NamePlaces::new(alloc, keys(alloc, running)?)?;
    let mut needs = Needs::new(alloc);
    let mut owners = Vec::new(alloc);
    for place in 0..running.len() {
        let more = causes_at(alloc, running, &keys, place)?;
        add(alloc, place, more.as_slice(), &mut needs, &mut owners)?;
    }
    Ok(CauseList { needs, owners })
}

/// Puts the causes of one owner after the others.
fn add(
    alloc: Global,
    owner: usize,
    more: &[Need],
    needs: &mut Needs,
    owners: &mut Vec<usize>,
) -> Result<(), AllocError>
    ensures needs { OnOk result (needs.new ≡ needs.old ++ more.now) }
    ensures owners { OnOk result (owners.new.items ≡ owners.old.items ++ replicate (length more.now) owner) }
{
    for cause in more {
        needs.push(copied(alloc, cause)?)?;
        owners.push(owner)?;
    }
    Ok(())
}

/// The causes that the service at a place owns.
fn causes_at(
    alloc: Global,
    running: &[Need],
    keys: &NamePlaces,
    place: usize,
) -> Result<Needs, AllocError>
    requires { keys.now ≡ keys_of running.now }
    ensures { IfOk result (λ n. n ≡ causes_at running.now place) }
{
    match running.get(place) {
        Some(need) => causes_of(alloc, running, keys, place, need),
        None => Ok(Needs::new(alloc)),
    }
}

fn causes_of(
    alloc: Global,
    running: &[Need],
    keys: &NamePlaces,
    place: usize,
    need: &Need,
) -> Result<Needs, AllocError>
    requires { keys.now ≡ keys_of running.now }
    ensures { IfOk result (λ n. n ≡ causes_of running.now place need.now) }
{
    let causes = own_causes(alloc, need)?;
    let more = class_cause(alloc, running, keys, place, need)?;
    with_one(causes, more)
}

/// One more cause after the others, where there is one.
fn with_one(causes: Needs, more: Option<Need>) -> Result<Needs, AllocError>
    ensures { IfOk result (λ n. n ≡ causes ++ option_to_list more) }
{
    let mut all = causes;
    match more {
        Some(cause) => {
            all.push(cause)?;
            Ok(all)
        }
        None => Ok(all),
    }
}

/// The causes of a service but that for its own group.
fn own_causes(alloc: Global, need: &Need) -> Result<Needs, AllocError>
    ensures { IfOk result (λ n. n ≡ own_causes need.now) }
{
    let mut causes = Needs::new(alloc);
    add_names(alloc, need, from_ref(&need.name), &mut causes)?;
    add_names(alloc, need, need.services.as_slice(), &mut causes)?;
    add_groups(alloc, need, need.groups.as_slice(), &mut causes)?;
    Ok(causes)
}

fn add_names(
    alloc: Global,
    need: &Need,
    names: &[Units],
    causes: &mut Needs,
) -> Result<(), AllocError>
    ensures { OnOk result (causes.new ≡ causes.old ++ map (by_name need.now) names.now) }
{
    for name in names {
        causes.push(by_name(alloc, need, name)?)?;
    }
    Ok(())
}

fn add_groups(
    alloc: Global,
    need: &Need,
    groups: &[Units],
    causes: &mut Needs,
) -> Result<(), AllocError>
    ensures { OnOk result (causes.new ≡ causes.old ++ map (by_group need.now) groups.now) }
{
    for group in groups {
        causes.push(by_group(alloc, need, group)?)?;
    }
    Ok(())
}

fn by_name(alloc: Global, need: &Need, name: &Units) -> Result<Need, AllocError>
    ensures { IfOk result (λ n. n ≡ by_name need.now name.now) }
{
    Ok(Need {
        name: need.name.copy(alloc)?,
        start: need.start,
        group: None,
        services: alone(alloc, name)?,
        groups: Names::new(alloc),
    })
}

fn by_group(alloc: Global, need: &Need, group: &Units) -> Result<Need, AllocError>
    ensures { IfOk result (λ n. n ≡ by_group need.now group.now) }
{
    Ok(Need {
        name: need.name.copy(alloc)?,
        start: need.start,
        group: None,
        services: Names::new(alloc),
        groups: alone(alloc, group)?,
    })
}

/// A list of one name.
fn alone(alloc: Global, name: &Units) -> Result<Names, AllocError>
    ensures { IfOk result (λ n. n ≡ name.now ∷ []) }
{
    let mut names = Names::new(alloc);
    names.push(name.copy(alloc)?)?;
    Ok(names)
}

// ---- groups

/// The cause of the service's own group, where it is the first of the group.
fn class_cause(
    alloc: Global,
    running: &[Need],
    keys: &NamePlaces,
    place: usize,
    need: &Need,
) -> Result<Option<Need>, AllocError>
    requires { keys.now ≡ keys_of running.now }
    ensures { IfOk result (λ n. n ≡ option_and_then (group_cause running.now place need.now) need.now.group) }
{
    match &need.group {
        Some(group) => group_cause(alloc, running, keys, place, need, group),
        None => Ok(None),
    }
}

fn group_cause(
    alloc: Global,
    running: &[Need],
    keys: &NamePlaces,
    place: usize,
    need: &Need,
    group: &Units,
) -> Result<Option<Need>, AllocError>
    requires { keys.now ≡ keys_of running.now }
    ensures { IfOk result (λ n. n ≡ group_cause running.now place need.now group.now) }
{
    let key = key(alloc, group)?;
    if !is_first(keys, key.as_slice(), place) {
        return Ok(None);
    }
    Ok(Some(Need {
        name: need.name.copy(alloc)?,
        start: need.start,
        group: Some(group.copy(alloc)?),
        services: names_at(alloc, running, keys.places(key.as_slice()))?,
        groups: Names::new(alloc),
    }))
}

/// Whether this is the first place of the key.
fn is_first(keys: &NamePlaces, key: &[u16], place: usize) -> bool
    ensures { result ≡ option_map_or (λ at. at == place) (position (folds_same key.now) keys.now) false }
{
    match keys.place_of(key) {
        Some(at) => at == place,
        None => false,
    }
}

/// The names of the services at these places.
fn names_at(alloc: Global, running: &[Need], places: &[usize]) -> Result<Names, AllocError>
    ensures { IfOk result (λ n. n ≡ names_at running.now places.now) }
{
    let mut names = Names::new(alloc);
    for place in places {
        if let Some(name) = name_at(alloc, running, *place)? {
            names.push(name)?;
        }
    }
    Ok(names)
}

fn name_at(alloc: Global, running: &[Need], place: usize) -> Result<Option<Units>, AllocError>
    ensures { IfOk result (λ n. n ≡ option_map (λ n. n.name) (slice_get running.now place)) }
{
    match running.get(place) {
        Some(need) => Ok(Some(need.name.copy(alloc)?)),
        None => Ok(None),
    }
}

/// The own groups of the services, as keys.
fn keys(alloc: Global, running: &[Need]) -> Result<Names, AllocError>
    ensures { IfOk result (λ n. n ≡ keys_of running.now) }
{
    let mut keys = Names::new(alloc);
    for need in running {
        keys.push(key_of(alloc, need)?)?;
    }
    Ok(keys)
}

fn key_of(alloc: Global, need: &Need) -> Result<Units, AllocError>
    ensures { IfOk result (λ u. u ≡ key_of need.now) }
{
    match &need.group {
        Some(group) => key(alloc, group),
        None => Ok(Units::new(alloc)),
    }
}

/// A group after a 1.
fn key(alloc: Global, group: &Units) -> Result<Units, AllocError>
    ensures { IfOk result (λ u. u ≡ 1 ∷ group.now) }
{
    let mut units = Vec::new(alloc);
    units.push(1)?;
    units.extend_from_slice(group.as_slice())?;
    Ok(Units::from_vec(units))
}
