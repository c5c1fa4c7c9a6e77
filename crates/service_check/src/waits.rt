//! The entries of a set and their good needs as one graph, in which a group is one need.

ghost use Rattle.std.specs.Prelude.{◌≡◌, ℕ, ◌^◌, ◌<◌, ◌≤◌, ◌+◌, ◌∷◌, ◌++◌, ◌==◌, [], List, map, length, position, replicate, option_and_then, Some, IfOk, IfSome, OnOk};
ghost use Rattle.std.specs.List.{flat_map, range_with_len};
ghost use Rattle.std.specs.Option.{option_copied, option_to_list};
ghost use Rattle.nt_bytes.specs.Folding.{folds_same};
ghost use Rattle.wait_cycles.specs.Graph.{AreWaits, waits_in};
ghost use Rattle.service_check.specs.Needs.{stage_fault, name_fault, is_good, groups_upto, waits_of};
ghost use Rattle.service_check.specs.Vertices.{base_of, name_ids, ids_from, ids_at, entry_ids, group_place};
ghost use Rattle.service_check.specs.Grouped.{AreGrouped, PutsMember, with_one};

use crate::names::first_names;
use crate::needs::is_demand;
use crate::stage::{Stage, Staged, is_upto};
use crate::table::Table;
use nt_bytes::{Row, Units};
use nt_names::name_places::NamePlaces;
use std::alloc::{AllocError, Global};

/// Where the needs of the groups of each stage begin.
#[derive(Clone, Copy)]
pub(crate) struct Bases {
    boot: usize,
    system: usize,
    taken: usize,
}

/// The graph: first a vertex for each entry, with its good needs. Takes n log n time in the entries and their needs.
pub(crate) fn waits(alloc: Global, table: &Table) -> Result<Vec<Row<usize>>, AllocError>
    ensures waits { IfOk result (λ g. AreWaits (length table.now) g.items) }
    ensures needs { IfOk result (λ g. waits_in (length table.now) g.items ≡ waits_of table.now) }
{
    let count = table.len();
    let boot = group_rows(alloc, table, Stage::Boot)?;
    let system = group_rows(alloc, table, Stage::System)?;
    let taken = group_rows(alloc, table, Stage::Automatic)?;
    let boots = boot.len();
    let systems = system.len();
    let bases = bases_for(count, boots, systems);
    let entries = entry_rows(alloc, table, bases)?;
    let own = own_rows(alloc, count)?;
    joined(entries, own, boot, system, taken)
}

/// The vertices in their order.
fn joined(
    entries: Vec<Row<usize>>,
    own: Vec<Row<usize>>,
    boot: Vec<Row<usize>>,
    system: Vec<Row<usize>>,
    taken: Vec<Row<usize>>,
) -> Result<Vec<Row<usize>>, AllocError>
    ensures { IfOk result (λ g. g.items ≡ (((entries.items ++ own.items) ++ boot.items) ++ system.items) ++ taken.items) }
{
    let mut rows = entries;
    push_rows(&mut rows, own)?;
    push_rows(&mut rows, boot)?;
    push_rows(&mut rows, system)?;
    push_rows(&mut rows, taken)?;
    Ok(rows)
}

/// The bases for that many entries and groups.
fn bases_for(count: usize, boot: usize, system: usize) -> Bases
    requires count { count < 2 ^ 32 }
    requires boot { boot < 2 ^ 32 }
    requires system { system < 2 ^ 32 }
    ensures boot { result.boot ≡ count + count }
    ensures system { result.system ≡ (count + count) + boot }
    ensures taken { result.taken ≡ ((count + count) + boot) + system }
    ensures few { result.taken < 2 ^ 34 }
{
    Bases {
        boot: count + count,
        system: count + count + boot,
        taken: count + count + boot + system,
    }
}

/// Appends these lists.
fn push_rows(rows: &mut Vec<Row<usize>>, more: Vec<Row<usize>>) -> Result<(), AllocError>
    ensures { OnOk result (rows.new.items ≡ rows.old.items ++ more.items) }
{
    for row in more {
        rows.push(row)?;
    }
    Ok(())
}

// ---- needs of names

/// For each place the need that it alone meets.
fn own_rows(alloc: Global, count: usize) -> Result<Vec<Row<usize>>, AllocError>
    ensures { IfOk result (λ rows. rows.items ≡ map (λ p. p ∷ []) (range_with_len 0 count)) }
{
    let mut rows = Vec::new(alloc);
    for place in 0..count {
        rows.push(own_row(alloc, place)?)?;
    }
    Ok(rows)
}

fn own_row(alloc: Global, place: usize) -> Result<Row<usize>, AllocError>
    ensures { IfOk result (λ row. row ≡ place ∷ []) }
{
    let mut row = Row::new(alloc);
    row.push(place)?;
    Ok(row)
}

// ---- needs of groups

/// For each group of the entries that are taken by a stage, the places of these, where it stands first.
fn group_rows(alloc: Global, table: &Table, stage: Stage) -> Result<Vec<Row<usize>>, AllocError>
    ensures grouped { IfOk result (λ ways. AreGrouped table.now stage (groups_upto stage table.now) (length table.now) ways.items) }
    ensures few { IfOk result (λ ways. length ways.items < 2 ^ 32) }
{
    let count = table.count_groups(stage);
    member_rows(alloc, table.rows(), table.groups(stage), stage, count)
}

fn member_rows(
    alloc: Global,
    rows: &[Staged],
    groups: &NamePlaces,
    stage: Stage,
    count: usize,
) -> Result<Vec<Row<usize>>, AllocError>
    requires { count ≡ length groups.now }
    ensures { IfOk result (λ ways. AreGrouped rows.now stage groups.now (length rows.now) ways.items) }
{
    let mut ways = empty_rows(alloc, count)?;
    for (place, row) in rows.iter().enumerate() {
        put_member(groups, stage, row, place, &mut ways)?;
    }
    Ok(ways)
}

/// That many empty lists.
fn empty_rows(alloc: Global, count: usize) -> Result<Vec<Row<usize>>, AllocError>
    ensures { IfOk result (λ rows. rows.items ≡ replicate count []) }
{
    let mut rows = Vec::new(alloc);
    for _ in 0..count {
        rows.push(Row::new(alloc))?;
    }
    Ok(rows)
}

/// Puts an entry to those of its group.
fn put_member(
    groups: &NamePlaces,
    stage: Stage,
    row: &Staged,
    place: usize,
    ways: &mut Vec<Row<usize>>,
) -> Result<(), AllocError>
    requires len { length ways.old.items ≡ length groups.now }
    ensures { OnOk result (PutsMember (group_place stage groups.now row.now) place ways.old.items ways.new.items) }
{
    match group_place(groups, stage, row) {
        Some(at) => put_at(at, place, ways),
        None => Ok(()),
    }
}

fn put_at(at: usize, place: usize, ways: &mut Vec<Row<usize>>) -> Result<(), AllocError>
    requires { at < length ways.old.items }
    ensures { OnOk result (ways.new.items ≡ with_one ways.old.items at place) }
{
    ways[at].push(place)
}

/// The place of an entry's group among those of a stage that takes it.
fn group_place(groups: &NamePlaces, stage: Stage, row: &Staged) -> Option<usize>
    ensures place { result ≡ group_place stage groups.now row.now }
    ensures within { IfSome result (λ at. at < length groups.now) }
{
    if is_upto(stage, row.stage) {
        return place_in(groups, &row.entry.group);
    }
    None
}

fn place_in(groups: &NamePlaces, group: &Option<Units>) -> Option<usize>
    ensures place { result ≡ option_and_then (λ g. position (folds_same g) groups.now) group.now }
    ensures within { IfSome result (λ at. at < length groups.now) }
{
    match group {
        Some(name) => groups.place_of(name.as_slice()),
        None => None,
    }
}

// ---- entries

/// For each entry the vertices of its good needs.
fn entry_rows(alloc: Global, table: &Table, bases: Bases) -> Result<Vec<Row<usize>>, AllocError>
    requires few { bases.taken < 2 ^ 34 }
    requires order { (bases.boot ≤ bases.taken) × (bases.system ≤ bases.taken) }
    ensures { IfOk result (λ rows. rows.items ≡ map (entry_ids table.now bases) table.now) }
{
    let mut rows = Vec::new(alloc);
    for row in table.rows() {
        rows.push(entry_row(alloc, table, bases, row)?)?;
    }
    Ok(rows)
}

fn entry_row(
    alloc: Global,
    table: &Table,
    bases: Bases,
    row: &Staged,
) -> Result<Row<usize>, AllocError>
    requires few { bases.taken < 2 ^ 34 }
    requires order { (bases.boot ≤ bases.taken) × (bases.system ≤ bases.taken) }
    ensures { IfOk result (λ ids. ids ≡ entry_ids table.now bases row.now) }
{
    match row.stage {
        Some(own) => ids_at(alloc, table, bases, row, own),
        None => Ok(Row::new(alloc)),
    }
}

fn ids_at(
    alloc: Global,
    table: &Table,
    bases: Bases,
    row: &Staged,
    own: Stage,
) -> Result<Row<usize>, AllocError>
    requires few { bases.taken < 2 ^ 34 }
    requires order { (bases.boot ≤ bases.taken) × (bases.system ≤ bases.taken) }
    ensures { IfOk result (λ ids. ids ≡ ids_at table.now bases row.now own) }
{
    let mut ids = Row::new(alloc);
    let services = first_names(alloc, row.entry.services.as_slice())?;
    put_names(table, own, services.as_slice(), &mut ids)?;
    let groups = first_names(alloc, row.entry.groups.as_slice())?;
    put_groups(table, base_of(bases, own), own, groups.as_slice(), &mut ids)?;
    Ok(ids)
}

fn base_of(bases: Bases, own: Stage) -> usize
    ensures { result ≡ base_of bases own }
{
    match own {
        Stage::Boot => bases.boot,
        Stage::System => bases.system,
        Stage::Automatic | Stage::Demand => bases.taken,
    }
}

fn put_names(
    table: &Table,
    own: Stage,
    needs: &[Units],
    ids: &mut Row<usize>,
) -> Result<(), AllocError>
    ensures { OnOk result (ids.new ≡ ids.old ++ flat_map (name_ids table.now own) needs.now) }
{
    for need in needs {
        put_name(table, own, need, ids)?;
    }
    Ok(())
}

fn put_name(table: &Table, own: Stage, need: &Units, ids: &mut Row<usize>) -> Result<(), AllocError>
    ensures { OnOk result (ids.new ≡ ids.old ++ name_ids table.now own need.now) }
{
    if is_good(table, own, need) {
        return put_id(
            table.len(),
            table.len(),
            table.place_of(need.as_slice()),
            ids,
        );
    }
    Ok(())
}

/// Puts in the vertex so far past a base, where there is one.
fn put_id(
    base: usize,
    count: usize,
    place: Option<usize>,
    ids: &mut Row<usize>,
) -> Result<(), AllocError>
    requires base { base < 2 ^ 34 }
    requires count { count < 2 ^ 32 }
    requires place { IfSome place (λ at. at < count) }
    ensures { OnOk result (ids.new ≡ ids.old ++ map (λ at. base + at) (option_to_list place)) }
{
    match place {
        Some(at) => ids.push(base + at),
        None => Ok(()),
    }
}

fn put_groups(
    table: &Table,
    base: usize,
    own: Stage,
    needs: &[Units],
    ids: &mut Row<usize>,
) -> Result<(), AllocError>
    requires { base < 2 ^ 34 }
    ensures { OnOk result (ids.new ≡ ids.old ++ flat_map (ids_from base (groups_upto own table.now)) needs.now) }
{
    for need in needs {
        put_group(table, base, own, need, ids)?;
    }
    Ok(())
}

fn put_group(
    table: &Table,
    base: usize,
    own: Stage,
    need: &Units,
    ids: &mut Row<usize>,
) -> Result<(), AllocError>
    requires { base < 2 ^ 34 }
    ensures { OnOk result (ids.new ≡ ids.old ++ ids_from base (groups_upto own table.now) need.now) }
{
    let count = table.count_groups(own);
    let place = table.groups(own).place_of(need.as_slice());
    put_id(base, count, place, ids)
}

/// Whether nothing is wrong with a name that an entry of this stage needs.
fn is_good(table: &Table, own: Stage, need: &Units) -> bool
    ensures { result ≡ is_good table.now own need.now }
{
    is_good_entry(table.named(need.as_slice()), own)
}

fn is_good_entry(named: Option<&Staged>, own: Stage) -> bool
    ensures { (need : List ℕ) → result ≡ (length (name_fault own need (option_copied named.entry)) == 0) }
{
    match named {
        Some(row) => is_good_stage(row.stage, own),
        None => false,
    }
}

fn is_good_stage(stage: Option<Stage>, own: Stage) -> bool
    ensures { (need : List ℕ) (start : ℕ) → result ≡ (length (stage_fault own need start stage) == 0) }
{
    match stage {
        Some(other) => is_in_time(other, own),
        None => false,
    }
}

fn is_in_time(other: Stage, own: Stage) -> bool
    ensures { (need : List ℕ) (start : ℕ) → result ≡ (length (stage_fault own need start (Some other)) == 0) }
{
    if is_demand(other) && !is_demand(own) {
        return false;
    }
    other.rank() <= own.rank()
}
