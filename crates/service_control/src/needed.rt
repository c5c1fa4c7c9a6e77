//! What the start of a service needs, and what is in its way.

ghost use Rattle.std.specs.Prelude.{◌≡◌, ◌<◌, ◌^◌, ◌==◌, [], length, map, filter, IfOk, if◌then◌else◌};
ghost use Rattle.std.specs.List.{fold, list_any};
ghost use Rattle.std.specs.Option.{option_copied};
ghost use Rattle.std.specs.Ordering.{is_lt};
ghost use Rattle.nt_bytes.specs.Folding.{folds_same, folded_order};
ghost use Rattle.start_model.specs.Ready.{has_name};
ghost use Rattle.service_control.specs.Needed.{asks, is_off, members_of, is_absent, lesser, missing_in, disabled_in};

use crate::lists::{copied, picked};
use dependencies::{Need, Needs, Started, automatic, services_met};
use nt_bytes::{Names, Units, compare_folded, same_folded};
use nt_names::name_places::NamePlaces;
use std::alloc::{AllocError, Global};
use std::slice::from_ref;

/// What a start of the service of this name needs and is not started, in the order of the table. Takes n log n
/// time in the entries and the names that they give.
pub(crate) fn members(
    alloc: Global,
    table: &[Need],
    started: &Started,
    name: &[u16],
) -> Result<Needs, AllocError>
    requires { length table.now < 2 ^ 32 }
    ensures { IfOk result (λ n. n ≡ members_of table.now started.now name.now) }
{
    let asking = asking(alloc, table, started, name)?;
    let needed = automatic(alloc, &asking)?;
    let members = picked(alloc, table, needed.as_slice())?;
    those_off(alloc, members.as_slice(), started)
}

/// The table as demand start sees it.
fn asking(
    alloc: Global,
    table: &[Need],
    started: &Started,
    name: &[u16],
) -> Result<Needs, AllocError>
    ensures asking { IfOk result (λ n. n ≡ map (asks started.now name.now) table.now) }
    ensures len { IfOk result (λ n. length n ≡ length table.now) }
{
    let mut made = Needs::new(alloc);
    for need in table {
        made.push(asks(alloc, need, started, name)?)?;
    }
    Ok(made)
}

fn asks(alloc: Global, need: &Need, started: &Started, name: &[u16]) -> Result<Need, AllocError>
    ensures { IfOk result (λ n. n ≡ asks started.now name.now need.now) }
{
    Ok(Need {
        name: need.name.copy(alloc)?,
        start: if same_folded(name, need.name.as_slice()) {
            2
        } else {
            3
        },
        group: None,
        services: asked(alloc, need, started)?,
        groups: Names::new(alloc),
    })
}

/// What the entry names in DependOnService, or nothing where it is started.
fn asked(alloc: Global, need: &Need, started: &Started) -> Result<Names, AllocError>
    ensures { IfOk result (λ n. n ≡ (if has_name started.now need.now.name then [] else need.now.services)) }
{
    if is_started(need, started) {
        Ok(Names::new(alloc))
    } else {
        need.services.copy(alloc)
    }
}

/// Whether an entry of this name was started.
pub(crate) fn is_started(need: &Need, started: &Started) -> bool
    ensures { result ≡ has_name started.now need.now.name }
{
    has_started(&need.name, started)
}

/// Whether an entry of this name was started.
pub(crate) fn has_started(name: &Units, started: &Started) -> bool
    ensures { result ≡ has_name started.now name.now }
{
    services_met(from_ref(name), started)
}

/// Those that are not started.
fn those_off(alloc: Global, needs: &[Need], started: &Started) -> Result<Needs, AllocError>
    ensures { IfOk result (λ n. n ≡ filter (is_off started.now) needs.now) }
{
    let mut off = Needs::new(alloc);
    for need in needs {
        if !is_started(need, started) {
            off.push(copied(alloc, need)?)?;
        }
    }
    Ok(off)
}

// ---- what is in the way

/// The least name that these give and that is no entry.
pub(crate) fn missing<'a>(index: &NamePlaces, members: &'a [Need]) -> Option<&'a Units>
    ensures { option_copied result ≡ missing_in index.now members.now }
{
    let mut best = None;
    for member in members {
        best = missing_among(index, member.services.as_slice(), best);
    }
    best
}

/// The least of the names that are no entries and of the best before.
fn missing_among<'a>(
    index: &NamePlaces,
    names: &'a [Units],
    before: Option<&'a Units>,
) -> Option<&'a Units>
    ensures { option_copied result ≡ fold lesser (option_copied before.entry) (filter (is_absent index.now) names.now) }
{
    let mut best = before;
    for name in names {
        if is_absent(index, name) {
            best = lesser(best, name);
        }
    }
    best
}

fn is_absent(index: &NamePlaces, name: &Units) -> bool
    ensures { result ≡ is_absent index.now name.now }
{
    !has(index, name)
}

fn has(index: &NamePlaces, name: &Units) -> bool
    ensures { result ≡ list_any (folds_same name.now) index.now }
{
    index.place_of(name.as_slice()).is_some()
}

/// The lesser of two names by fold, the first where they fold to one.
fn lesser<'a>(best: Option<&'a Units>, name: &'a Units) -> Option<&'a Units>
    ensures { option_copied result ≡ lesser (option_copied best.entry) name.now }
{
    match best {
        None => Some(name),
        Some(best) => Some(first_of(best, name)),
    }
}

fn first_of<'a>(best: &'a Units, name: &'a Units) -> &'a Units
    ensures { result.now ≡ (if is_lt (folded_order name.now best.now) then name.now else best.now) }
{
    if compare_folded(name.as_slice(), best.as_slice()).is_lt() {
        name
    } else {
        best
    }
}

/// The least name of those that have Start 4.
pub(crate) fn disabled(members: &[Need]) -> Option<&Units>
    ensures { option_copied result ≡ disabled_in members.now }
{
    let mut best = None;
    for member in members {
        if member.start == 4 {
            best = lesser(best, &member.name);
        }
    }
    best
}
