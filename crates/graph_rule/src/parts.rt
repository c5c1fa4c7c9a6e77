//! What nodes and edges are made of, with names to look up.

ghost use Rattle.std.specs.Prelude.{◌≡◌, ◌++◌, filter, length, not, slice_get, IfOk, OnOk};
ghost use Rattle.std.specs.List.{filter_map, flat_map, range_with_len};
ghost use Rattle.std.specs.Option.{is_some, option_and_then, option_copied, option_to_list};
ghost use Rattle.start_model.specs.Entries.{Entry as Item};
ghost use Rattle.why_needs.specs.why_state.States.{place_in};
ghost use Rattle.why_needs.specs.why_state.Views.{names_of};
ghost use Rattle.graph_rule.specs.Rows.{missing_names, group_names, grouped_at, members_of, members_in, parts_by};

use crate::names::{first_names, names_of, push_names};
use crate::nodes::entry_nodes;
use answer_lines::graph_lines::GraphNodes;
use boot_phases::service_entries::{Entries, Entry};
use nt_bytes::{Names, Row, Units};
use nt_names::name_places::NamePlaces;
use std::alloc::{AllocError, Global};
use why_needs::why_state::ViewedRun;

/// Entries that have a group, by their places, and these groups, each found without a scan.
#[derive(Drop)]
pub(crate) struct GroupEntries {
    pub(crate) at: Row<usize>,
    pub(crate) groups: NamePlaces,
}

/// What nodes and edges are made of.
#[derive(Drop)]
pub(crate) struct GraphParts {
    pub(crate) entries: Entries,
    /// The nodes of the entries.
    pub(crate) nodes: GraphNodes,
    /// The names of the entries.
    pub(crate) names: NamePlaces,
    /// The names without an entry.
    pub(crate) missing: NamePlaces,
    /// The groups that entries need.
    pub(crate) groups: NamePlaces,
    /// The entries that have a group.
    pub(crate) members: GroupEntries,
}

// ---- names without an entry

/// The names that entries need.
fn needed_names(alloc: Global, entries: &[Entry]) -> Result<Names, AllocError>
    ensures { IfOk result (λ names. names ≡ flat_map (λ (e : Item). e.services) entries.now) }
{
    let mut names = Names::new(alloc);
    for entry in entries {
        push_names(alloc, entry.services.as_slice(), &mut names)?;
    }
    Ok(names)
}

/// The name that is asked for, if one is.
fn asked_names(alloc: Global, of: Option<&Units>) -> Result<Names, AllocError>
    ensures { IfOk result (λ names. names ≡ option_to_list (option_copied of.entry)) }
{
    let mut names = Names::new(alloc);
    match of {
        Some(name) => names.push(name.copy(alloc)?)?,
        None => {}
    }
    Ok(names)
}

fn has(names: &NamePlaces, name: &Units) -> bool
    ensures { result ≡ is_some (place_in names.now name.now) }
{
    names.place_of(name.as_slice()).is_some()
}

/// Those of the names that are not among the others.
fn without(alloc: Global, names: &[Units], others: &NamePlaces) -> Result<Names, AllocError>
    ensures { IfOk result (λ out. out ≡ filter (λ name. not (is_some (place_in others.now name))) names.now) }
{
    let mut out = Names::new(alloc);
    for name in names {
        if !has(others, name) {
            out.push(name.copy(alloc)?)?;
        }
    }
    Ok(out)
}

/// The names that have no entry.
fn missing_names(
    alloc: Global,
    entries: &[Entry],
    names: &NamePlaces,
    of: Option<&Units>,
) -> Result<Names, AllocError>
    ensures { IfOk result (λ out. out ≡ missing_names entries.now names.now (option_copied of.entry)) }
{
    let mut wanted = asked_names(alloc, of)?;
    let needed = needed_names(alloc, entries)?;
    push_names(alloc, needed.as_slice(), &mut wanted)?;
    first_names(alloc, without(alloc, wanted.as_slice(), names)?)
}

// ---- groups

/// The groups that entries need, each time that one does.
fn needed_groups(alloc: Global, entries: &[Entry]) -> Result<Names, AllocError>
    ensures { IfOk result (λ names. names ≡ flat_map (λ (e : Item). e.groups) entries.now) }
{
    let mut names = Names::new(alloc);
    for entry in entries {
        push_names(alloc, entry.groups.as_slice(), &mut names)?;
    }
    Ok(names)
}

fn group_names(alloc: Global, entries: &[Entry]) -> Result<Names, AllocError>
    ensures { IfOk result (λ names. names ≡ group_names entries.now) }
{
    first_names(alloc, needed_groups(alloc, entries)?)
}

/// The group of the entry at a place.
fn group_at(entries: &[Entry], at: usize) -> Option<&Units>
    ensures { option_copied result ≡ option_and_then (λ (e : Item). e.group) (slice_get entries.now at) }
{
    match entries.get(at) {
        Some(entry) => entry.group.as_ref(),
        None => None,
    }
}

fn push_grouped(entries: &[Entry], at: usize, out: &mut Row<usize>) -> Result<(), AllocError>
    ensures { OnOk result (out.new ≡ out.old ++ option_to_list (grouped_at entries.now at)) }
{
    match group_at(entries, at) {
        Some(_) => out.push(at),
        None => Ok(()),
    }
}

/// The places of the entries that have a group.
fn grouped_places(alloc: Global, entries: &[Entry]) -> Result<Row<usize>, AllocError>
    ensures { IfOk result (λ out. out ≡ filter_map (grouped_at entries.now) (range_with_len 0 (length entries.now))) }
{
    let mut out = Row::new(alloc);
    for at in 0..entries.len() {
        push_grouped(entries, at, &mut out)?;
    }
    Ok(out)
}

/// Puts the group of an entry after the others, where it has one.
fn push_group(alloc: Global, entry: &Entry, names: &mut Names) -> Result<(), AllocError>
    ensures { OnOk result (names.new ≡ names.old ++ option_to_list entry.now.group) }
{
    match &entry.group {
        Some(group) => names.push(group.copy(alloc)?),
        None => Ok(()),
    }
}

/// The groups of the entries that have one.
fn groups_of(alloc: Global, entries: &[Entry]) -> Result<Names, AllocError>
    ensures { IfOk result (λ names. names ≡ filter_map (λ (e : Item). e.group) entries.now) }
{
    let mut names = Names::new(alloc);
    for entry in entries {
        push_group(alloc, entry, &mut names)?;
    }
    Ok(names)
}

fn members_of(alloc: Global, entries: &[Entry]) -> Result<GroupEntries, AllocError>
    ensures { IfOk result (λ members. members ≡ members_of entries.now) }
{
    Ok(GroupEntries {
        at: grouped_places(alloc, entries)?,
        groups: NamePlaces::new(alloc, groups_of(alloc, entries)?)?,
    })
}

fn place_at(places: &Row<usize>, at: usize) -> Option<usize>
    ensures { result ≡ slice_get places.now at }
{
    places.get(at).copied()
}

fn push_place(places: &Row<usize>, at: usize, out: &mut Row<usize>) -> Result<(), AllocError>
    ensures { OnOk result (out.new ≡ out.old ++ option_to_list (slice_get places.now at)) }
{
    match place_at(places, at) {
        Some(place) => out.push(place),
        None => Ok(()),
    }
}

fn places_at(alloc: Global, places: &Row<usize>, at: &[usize]) -> Result<Row<usize>, AllocError>
    ensures { IfOk result (λ out. out ≡ filter_map (slice_get places.now) at.now) }
{
    let mut out = Row::new(alloc);
    for place in at {
        push_place(places, *place, &mut out)?;
    }
    Ok(out)
}

/// The entries of a group, by their places.
pub(crate) fn members_in(
    alloc: Global,
    members: &GroupEntries,
    group: &[u16],
) -> Result<Row<usize>, AllocError>
    ensures { IfOk result (λ out. out ≡ members_in members.now group.now) }
{
    places_at(alloc, &members.at, members.groups.places(group))
}

// ---- all parts

/// The names of the entries, and those that have no entry.
fn named(
    alloc: Global,
    entries: &[Entry],
    of: Option<&Units>,
) -> Result<(NamePlaces, NamePlaces), AllocError>
    ensures names { IfOk result (λ r. r.0 ≡ names_of entries.now) }
    ensures missing { IfOk result (λ r. r.1 ≡ missing_names entries.now (names_of entries.now) (option_copied of.entry)) }
{
    let names = NamePlaces::new(alloc, names_of(alloc, entries)?)?;
    let missing = NamePlaces::new(alloc, missing_names(alloc, entries, &names, of)?)?;
    Ok((names, missing))
}

/// The groups that entries need, and the entries that have one.
fn grouped(alloc: Global, entries: &[Entry]) -> Result<(NamePlaces, GroupEntries), AllocError>
    ensures groups { IfOk result (λ r. r.0 ≡ group_names entries.now) }
    ensures members { IfOk result (λ r. r.1 ≡ members_of entries.now) }
{
    let groups = NamePlaces::new(alloc, group_names(alloc, entries)?)?;
    let members = members_of(alloc, entries)?;
    Ok((groups, members))
}

/// The parts of a start's graph by its entries.
pub(crate) fn parts(
    alloc: Global,
    run: &ViewedRun,
    of: Option<&Units>,
    entries: Entries,
) -> Result<GraphParts, AllocError>
    ensures { IfOk result (λ parts. parts ≡ parts_by run.now (option_copied of.entry) entries) }
{
    let nodes = entry_nodes(alloc, run, entries.as_slice())?;
    let (names, missing) = named(alloc, entries.as_slice(), of)?;
    let (groups, members) = grouped(alloc, entries.as_slice())?;
    Ok(GraphParts {
        entries,
        nodes,
        names,
        missing,
        groups,
        members,
    })
}
