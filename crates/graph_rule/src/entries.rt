//! The entries of the graph, in their order.

ghost use Rattle.std.specs.Prelude.{◌≡◌, ◌++◌, filter, length, IfOk, OnOk};
ghost use Rattle.std.specs.List.{filter_map, flat_map, range_with_len};
ghost use Rattle.std.specs.Option.{option_copied, option_to_list};
ghost use Rattle.hive_model.specs.Valid.{HoldsKeys};
ghost use Rattle.why_needs.specs.why_needs.Met.{entry_at};
ghost use Rattle.graph_rule.specs.Entries.{is_placed_at, begun_names, begun_at, unbegun, coming_names, all_names, in_plan, in_set, entry_named, entries_by, entries_in};

use crate::names::{first_names, names_of, push_names};
use boot_phases::service_entries::{Entries, Entry, entries};
use nt_bytes::{Names, Units};
use nt_names::name_places::NamePlaces;
use std::alloc::{AllocError, Global};
use why_needs::why_state::{PhaseView, ViewedRun, placed_of};

// ---- names phase by phase

/// Whether the last plan that has the name is that of the phase at a place.
fn is_placed_at(run: &ViewedRun, at: usize, name: &Units) -> bool
    ensures { result ≡ is_placed_at run.now at name.now }
{
    match placed_of(run, name.as_slice()) {
        Some((place, _)) => place == at,
        None => false,
    }
}

/// Those of the names whose last plan is that of the phase at a place.
fn placed_at(
    alloc: Global,
    run: &ViewedRun,
    at: usize,
    names: &[Units],
) -> Result<Names, AllocError>
    ensures { IfOk result (λ out. out ≡ filter (is_placed_at run.now at) names.now) }
{
    let mut out = Names::new(alloc);
    for name in names {
        if is_placed_at(run, at, name) {
            out.push(name.copy(alloc)?)?;
        }
    }
    Ok(out)
}

/// The names of a phase: first those that it attempted, and then its plan.
fn begun_names(
    alloc: Global,
    run: &ViewedRun,
    at: usize,
    view: &PhaseView,
) -> Result<Names, AllocError>
    ensures { IfOk result (λ names. names ≡ begun_names run.now at view.now) }
{
    let mut names = placed_at(alloc, run, at, run.tried.as_slice())?;
    let plan = placed_at(alloc, run, at, view.names.as_slice())?;
    push_names(alloc, plan.as_slice(), &mut names)?;
    Ok(names)
}

fn begun_at(alloc: Global, run: &ViewedRun, at: usize) -> Result<Names, AllocError>
    ensures { IfOk result (λ names. names ≡ begun_at run.now at) }
{
    match run.views.get(at) {
        Some(view) => begun_names(alloc, run, at, view),
        None => Ok(Names::new(alloc)),
    }
}

fn push_begun(alloc: Global, run: &ViewedRun, at: usize, out: &mut Names) -> Result<(), AllocError>
    ensures { OnOk result (out.new ≡ out.old ++ begun_at run.now at) }
{
    let names = begun_at(alloc, run, at)?;
    push_names(alloc, names.as_slice(), out)
}

/// The names of the phases that began.
fn all_begun(alloc: Global, run: &ViewedRun) -> Result<Names, AllocError>
    ensures { IfOk result (λ names. names ≡ flat_map (begun_at run.now) (range_with_len 0 (length run.now.views))) }
{
    let mut out = Names::new(alloc);
    for at in 0..run.views.len() {
        push_begun(alloc, run, at, &mut out)?;
    }
    Ok(out)
}

/// Puts what the phase of a number takes after the others, where it did not begin.
fn push_unbegun(
    alloc: Global,
    run: &ViewedRun,
    number: usize,
    names: &NamePlaces,
    out: &mut Names,
) -> Result<(), AllocError>
    ensures { OnOk result (out.new ≡ out.old ++ unbegun run.now number names.now) }
{
    if number < run.views.len() {
        return Ok(());
    }
    push_names(alloc, names.as_slice(), out)
}

/// Puts what the phases take after the others that did not begin.
fn push_coming(alloc: Global, run: &ViewedRun, out: &mut Names) -> Result<(), AllocError>
    ensures { OnOk result (out.new ≡ out.old ++ coming_names run.now) }
{
    push_unbegun(alloc, run, 0, &run.coming.boot, out)?;
    push_unbegun(alloc, run, 1, &run.coming.system, out)?;
    push_unbegun(alloc, run, 2, &run.coming.automatic, out)
}

/// The names phase by phase, and then those of all entries of the set.
fn all_names(alloc: Global, run: &ViewedRun, entries: &[Entry]) -> Result<Names, AllocError>
    ensures { IfOk result (λ names. names ≡ all_names run.now entries.now) }
{
    let mut names = all_begun(alloc, run)?;
    push_coming(alloc, run, &mut names)?;
    let listed = names_of(alloc, entries)?;
    push_names(alloc, listed.as_slice(), &mut names)?;
    Ok(names)
}

// ---- entries

fn entry_at(run: &ViewedRun, place: (usize, usize)) -> Option<&Entry>
    ensures { option_copied result ≡ entry_at run.now place }
{
    match run.views.get(place.0) {
        Some(view) => view.plan.get(place.1),
        None => None,
    }
}

/// The entry of the last plan that has the name.
fn in_plan<'a>(run: &'a ViewedRun, name: &[u16]) -> Option<&'a Entry>
    ensures { option_copied result ≡ in_plan run.now name.now }
{
    match placed_of(run, name) {
        Some(place) => entry_at(run, place),
        None => None,
    }
}

/// The entry of the set that has the name.
fn in_set<'a>(entries: &'a [Entry], names: &NamePlaces, name: &[u16]) -> Option<&'a Entry>
    ensures { option_copied result ≡ in_set entries.now names.now name.now }
{
    match names.place_of(name) {
        Some(at) => entries.get(at),
        None => None,
    }
}

fn entry_named<'a>(
    run: &'a ViewedRun,
    entries: &'a [Entry],
    names: &NamePlaces,
    name: &[u16],
) -> Option<&'a Entry>
    ensures { option_copied result ≡ entry_named run.now entries.now names.now name.now }
{
    match in_plan(run, name) {
        Some(entry) => Some(entry),
        None => in_set(entries, names, name),
    }
}

/// Puts the entry of a name after the others, where there is one.
fn push_named(
    alloc: Global,
    run: &ViewedRun,
    entries: &[Entry],
    names: &NamePlaces,
    name: &Units,
    out: &mut Entries,
) -> Result<(), AllocError>
    ensures { OnOk result (out.new ≡ out.old ++ option_to_list (entry_named run.now entries.now names.now name.now)) }
{
    match entry_named(run, entries, names, name.as_slice()) {
        Some(entry) => out.push(entry.copy(alloc)?),
        None => Ok(()),
    }
}

/// The entries of the names.
fn each_named(
    alloc: Global,
    run: &ViewedRun,
    entries: &[Entry],
    names: &NamePlaces,
    firsts: &[Units],
) -> Result<Entries, AllocError>
    ensures { IfOk result (λ out. out ≡ filter_map (entry_named run.now entries.now names.now) firsts.now) }
{
    let mut out = Entries::new(alloc);
    for name in firsts {
        push_named(alloc, run, entries, names, name, &mut out)?;
    }
    Ok(out)
}

/// The entries of the graph, where the set as it is in the end has these.
fn entries_by(alloc: Global, run: &ViewedRun, entries: &[Entry]) -> Result<Entries, AllocError>
    ensures { IfOk result (λ out. out ≡ entries_by run.now entries.now) }
{
    let firsts = first_names(alloc, all_names(alloc, run, entries)?)?;
    let names = NamePlaces::new(alloc, names_of(alloc, entries)?)?;
    each_named(alloc, run, entries, &names, firsts.as_slice())
}

/// The entries of the graph.
pub(crate) fn entries_in(alloc: Global, run: &ViewedRun) -> Result<Entries, AllocError>
    requires { HoldsKeys run.now.run.set }
    ensures { IfOk result (λ out. out ≡ entries_in run.now) }
{
    let table = entries(alloc, &run.run.set)?;
    let listed = table.into_entries(alloc)?;
    entries_by(alloc, run, listed.as_slice())
}
