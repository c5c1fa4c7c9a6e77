//! Which needs of an entry were not met by the first attempts.

ghost use Rattle.std.specs.Prelude.{◌≡◌, ◌++◌, IfOk, OnOk, Some, None, if◌then◌else◌};
ghost use Rattle.std.specs.Option.{option_to_list};
ghost use Rattle.why_needs.specs.why_needs.Met.{service_met, group_met, is_met};
ghost use Rattle.why_needs.specs.why_needs.Lacking.{is_first, lacking_at, lacking_services, lacking_groups};

use crate::why_needs::met::{GroupStarts, group_met, is_met, service_met};
use crate::why_state::ViewedRun;
use nt_bytes::{Names, Units};
use nt_names::name_places::NamePlaces;
use std::alloc::{AllocError, Global};

/// Whether no name before this place folds as this one does.
fn is_first(names: &NamePlaces, at: usize, name: &[u16]) -> bool
    ensures { result ≡ is_first names.now at name.now }
{
    match names.place_of(name) {
        Some(first) => first == at,
        None => false,
    }
}

fn has_service(run: &ViewedRun, n: usize, name: &[u16]) -> bool
    ensures { result ≡ is_met n (service_met run.now name.now) }
{
    is_met(n, service_met(run, name))
}

fn has_group(starts: &GroupStarts, n: usize, name: &[u16]) -> bool
    ensures { result ≡ is_met n (group_met starts.now name.now) }
{
    is_met(n, group_met(starts, name))
}

/// The places of these names.
fn places_of(alloc: Global, names: &Names) -> Result<NamePlaces, AllocError>
    ensures { IfOk result (λ places. places ≡ names.now) }
{
    let names = names.copy(alloc)?;
    NamePlaces::new(alloc, names)
}

/// Puts the name after the others, where `lacks`.
fn push_where(alloc: Global, lacks: bool, name: &Units, left: &mut Names) -> Result<(), AllocError>
    ensures { OnOk result (left.new ≡ left.old ++ option_to_list (if lacks then Some name.now else None)) }
{
    if lacks {
        return left.push(name.copy(alloc)?);
    }
    Ok(())
}

fn push_service(
    alloc: Global,
    run: &ViewedRun,
    n: usize,
    names: &NamePlaces,
    at: usize,
    left: &mut Names,
) -> Result<(), AllocError>
    ensures { OnOk result (left.new ≡ left.old ++ option_to_list (lacking_at (λ name. is_met n (service_met run.now name)) names.now at)) }
{
    match names.as_slice().get(at) {
        Some(name) => push_where(
            alloc,
            is_first(names, at, name.as_slice()) && !has_service(run, n, name.as_slice()),
            name,
            left,
        ),
        None => Ok(()),
    }
}

fn push_group(
    alloc: Global,
    starts: &GroupStarts,
    n: usize,
    names: &NamePlaces,
    at: usize,
    left: &mut Names,
) -> Result<(), AllocError>
    ensures { OnOk result (left.new ≡ left.old ++ option_to_list (lacking_at (λ name. is_met n (group_met starts.now name)) names.now at)) }
{
    match names.as_slice().get(at) {
        Some(name) => push_where(
            alloc,
            is_first(names, at, name.as_slice()) && !has_group(starts, n, name.as_slice()),
            name,
            left,
        ),
        None => Ok(()),
    }
}

/// The names that were not started by the first attempts, each folded name once, in their order.
pub fn lacking_services(
    alloc: Global,
    run: &ViewedRun,
    n: usize,
    names: &Names,
) -> Result<Names, AllocError>
    ensures { IfOk result (λ left. left ≡ lacking_services run.now n names.now) }
{
    let places = places_of(alloc, names)?;
    let mut left = Names::new(alloc);
    for at in 0..names.len() {
        push_service(alloc, run, n, &places, at, &mut left)?;
    }
    Ok(left)
}

/// The groups without a member that was started by the first attempts, each folded name once, in their order.
pub fn lacking_groups(
    alloc: Global,
    starts: &GroupStarts,
    n: usize,
    names: &Names,
) -> Result<Names, AllocError>
    ensures { IfOk result (λ left. left ≡ lacking_groups starts.now n names.now) }
{
    let places = places_of(alloc, names)?;
    let mut left = Names::new(alloc);
    for at in 0..names.len() {
        push_group(alloc, starts, n, &places, at, &mut left)?;
    }
    Ok(left)
}
