//! Items and their needs as one graph, in which a group in a phase is one need.

ghost use Rattle.std.specs.Prelude.{◌≡◌, ◌<◌, ◌∷◌, ◌++◌, [], map, length, slice_get, IfOk, OnOk};
ghost use Rattle.std.specs.Option.{option_copied, option_map, option_map_or, option_to_list};
ghost use Rattle.std.specs.List.{filter_map, range_with_len};
ghost use Rattle.indexmap.specs.IndexSet.{insert_all};
ghost use Rattle.why_lacks.specs.why_items.Gone.{same_pair};
ghost use Rattle.why_lacks.specs.why_items.Items.{lacks_services, lacks_groups};
ghost use Rattle.why_lacks.specs.why_cycle.Needs.{leads_of, places_in, waits_of};
ghost use Rattle.wait_cycles.specs.Graph.{AreWaits, waits_in};
ghost use Rattle.why_lacks.specs.why_cycle.Shared.{pair_of, pairs_of, all_pairs, pair_name, pair_ways, service_need, group_need, item_row, ways_or_none, rows_with, shared_rows};

use crate::why_cycle::needs::group_ways;
use crate::why_cycle::waits::places_in;
use crate::why_items::{
    NeedsRun, add, all_leads, first_place, lacks_groups, lacks_services, places_of,
};
use boot_phases::service_entries::Entry;
use indexmap::IndexSet;
use nt_bytes::{Row, Units};
use std::alloc::{AllocError, Global};
use why_needs::why_state::PhaseView;

/// Groups in phases.
type Pairs = IndexSet<(usize, usize)>;

/// Their ways, where they are open.
type PairWays = Row<Option<Row<usize>>>;

// ---- groups

/// Puts the group after the others, where it has members and is not there.
fn put_group(
    needs: &NeedsRun,
    at: usize,
    group: &Units,
    pairs: &mut Pairs,
) -> Result<(), AllocError>
    ensures { OnOk result (pairs.new.keys ≡ insert_all same_pair pairs.old.keys (option_to_list (pair_of needs.now at group.now))) }
{
    if let Some(first) = first_place(needs, at, group.as_slice()) {
        pairs.insert((at, first))?;
    }
    Ok(())
}

fn put_groups(
    needs: &NeedsRun,
    at: usize,
    groups: &[Units],
    pairs: &mut Pairs,
) -> Result<(), AllocError>
    ensures { OnOk result (pairs.new.keys ≡ insert_all same_pair pairs.old.keys (filter_map (pair_of needs.now at) groups.now)) }
{
    for group in groups {
        put_group(needs, at, group, pairs)?;
    }
    Ok(())
}

/// The same of those that an entry lacks.
fn put_by(
    alloc: Global,
    needs: &NeedsRun,
    at: usize,
    view: &PhaseView,
    entry: Option<&Entry>,
    pairs: &mut Pairs,
) -> Result<(), AllocError>
    ensures { OnOk result (pairs.new.keys ≡ insert_all same_pair pairs.old.keys
        (option_map_or (λ e. filter_map (pair_of needs.now at) (lacks_groups needs.now view.now e)) (option_copied entry.entry) [])) }
{
    match entry {
        Some(entry) => {
            let groups = lacks_groups(alloc, needs, view, entry)?;
            put_groups(needs, at, groups.as_slice(), pairs)
        }
        None => Ok(()),
    }
}

/// The same by its places.
fn put_at(
    alloc: Global,
    needs: &NeedsRun,
    place: (usize, usize),
    pairs: &mut Pairs,
) -> Result<(), AllocError>
    ensures { OnOk result (pairs.new.keys ≡ insert_all same_pair pairs.old.keys
        (option_map_or (λ v. option_map_or (λ e. filter_map (pair_of needs.now place.0) (lacks_groups needs.now v e)) (slice_get v.plan place.1) [])
        (slice_get needs.now.run.views place.0) [])) }
{
    match needs.run.views.get(place.0) {
        Some(view) => put_by(alloc, needs, place.0, view, view.plan.get(place.1), pairs),
        None => Ok(()),
    }
}

/// The same by its number.
fn put_pairs(
    alloc: Global,
    needs: &NeedsRun,
    number: usize,
    pairs: &mut Pairs,
) -> Result<(), AllocError>
    ensures { OnOk result (pairs.new.keys ≡ insert_all same_pair pairs.old.keys (pairs_of needs.now number)) }
{
    match places_of(&needs.run, number) {
        Some(place) => put_at(alloc, needs, place, pairs),
        None => Ok(()),
    }
}

/// The groups that one of the items lacks, each once a phase.
fn all_pairs(alloc: Global, needs: &NeedsRun, items: &IndexSet<usize>) -> Result<Pairs, AllocError>
    ensures { IfOk result (λ pairs. pairs.keys ≡ all_pairs needs.now items.now.keys) }
{
    let mut pairs = IndexSet::new(alloc);
    for number in items.as_slice() {
        put_pairs(alloc, needs, *number, &mut pairs)?;
    }
    Ok(pairs)
}

fn pair_name(needs: &NeedsRun, pair: (usize, usize)) -> Option<&Units>
    ensures { option_copied result ≡ pair_name needs.now pair }
{
    match needs.members.get(pair.0) {
        Some(members) => members.groups.as_slice().get(pair.1),
        None => None,
    }
}

fn placed_ways(
    alloc: Global,
    items: &IndexSet<usize>,
    ways: Option<Row<usize>>,
) -> Result<Option<Row<usize>>, AllocError>
    ensures { IfOk result (λ o. o ≡ option_map (places_in items.now.keys) ways) }
{
    match ways {
        Some(ways) => Ok(Some(places_in(alloc, items, ways.as_slice())?)),
        None => Ok(None),
    }
}

/// The ways of a group, where it is open.
fn pair_ways(
    alloc: Global,
    needs: &NeedsRun,
    items: &IndexSet<usize>,
    pair: (usize, usize),
) -> Result<Option<Row<usize>>, AllocError>
    ensures { IfOk result (λ o. o ≡ pair_ways needs.now items.now.keys pair) }
{
    match needs.run.views.get(pair.0) {
        Some(view) => match pair_name(needs, pair) {
            Some(name) => placed_ways(alloc, items, group_ways(alloc, needs, pair.0, view, name)?),
            None => Ok(None),
        },
        None => Ok(None),
    }
}

fn all_ways(
    alloc: Global,
    needs: &NeedsRun,
    items: &IndexSet<usize>,
    pairs: &[(usize, usize)],
) -> Result<PairWays, AllocError>
    ensures { IfOk result (λ ways. ways ≡ map (pair_ways needs.now items.now.keys) pairs.now) }
{
    let mut ways = Row::new(alloc);
    for pair in pairs {
        ways.push(pair_ways(alloc, needs, items, *pair)?)?;
    }
    Ok(ways)
}

// ---- needs by their numbers

/// The need of a service that leads to an item.
fn service_need(items: &IndexSet<usize>, groups: usize, to: usize) -> Result<usize, AllocError>
    ensures { IfOk result (λ k. k ≡ service_need items.now.keys groups to) }
{
    let place = items.get_index_of(&to).unwrap_or(items.len());
    add(add(items.len(), groups)?, place)
}

fn push_services(
    items: &IndexSet<usize>,
    groups: usize,
    leads: &[usize],
    row: &mut Row<usize>,
) -> Result<(), AllocError>
    ensures { OnOk result (row.new ≡ row.old ++ map (service_need items.now.keys groups) leads.now) }
{
    for to in leads {
        row.push(service_need(items, groups, *to)?)?;
    }
    Ok(())
}

/// The need of a group, where it is open.
fn group_need(
    needs: &NeedsRun,
    items: &IndexSet<usize>,
    pairs: &Pairs,
    ways: &PairWays,
    at: usize,
    group: &Units,
) -> Result<Option<usize>, AllocError>
    ensures { IfOk result (λ k. k ≡ group_need needs.now items.now.keys pairs.now.keys ways.now at group.now) }
{
    let Some(first) = first_place(needs, at, group.as_slice()) else {
        return Ok(None);
    };
    let Some(i) = pairs.get_index_of(&(at, first)) else {
        return Ok(None);
    };
    match ways.get(i) {
        Some(Some(_)) => Ok(Some(add(items.len(), i)?)),
        _ => Ok(None),
    }
}

fn push_group(
    needs: &NeedsRun,
    items: &IndexSet<usize>,
    pairs: &Pairs,
    ways: &PairWays,
    at: usize,
    group: &Units,
    row: &mut Row<usize>,
) -> Result<(), AllocError>
    ensures { OnOk result (row.new ≡ row.old ++ option_to_list (group_need needs.now items.now.keys pairs.now.keys ways.now at group.now)) }
{
    match group_need(needs, items, pairs, ways, at, group)? {
        Some(need) => row.push(need),
        None => Ok(()),
    }
}

fn push_groups(
    needs: &NeedsRun,
    items: &IndexSet<usize>,
    pairs: &Pairs,
    ways: &PairWays,
    at: usize,
    groups: &[Units],
    row: &mut Row<usize>,
) -> Result<(), AllocError>
    ensures { OnOk result (row.new ≡ row.old ++ filter_map (group_need needs.now items.now.keys pairs.now.keys ways.now at) groups.now) }
{
    for group in groups {
        push_group(needs, items, pairs, ways, at, group, row)?;
    }
    Ok(())
}

fn row_in(
    alloc: Global,
    needs: &NeedsRun,
    items: &IndexSet<usize>,
    pairs: &Pairs,
    ways: &PairWays,
    at: usize,
    view: &PhaseView,
    entry: &Entry,
) -> Result<Row<usize>, AllocError>
    requires { at < length needs.now.run.views }
    ensures { IfOk result (λ row. row ≡ map (service_need items.now.keys (length pairs.now.keys)) (leads_of needs.now at view.now (lacks_services needs.now view.now entry.now))
        ++ filter_map (group_need needs.now items.now.keys pairs.now.keys ways.now at) (lacks_groups needs.now view.now entry.now)) }
{
    let mut row = Row::new(alloc);
    let names = lacks_services(alloc, needs, view, entry)?;
    let leads = all_leads(alloc, needs, at, view, names.as_slice())?;
    push_services(items, pairs.len(), leads.as_slice(), &mut row)?;
    let groups = lacks_groups(alloc, needs, view, entry)?;
    push_groups(needs, items, pairs, ways, at, groups.as_slice(), &mut row)?;
    Ok(row)
}

fn row_by(
    alloc: Global,
    needs: &NeedsRun,
    items: &IndexSet<usize>,
    pairs: &Pairs,
    ways: &PairWays,
    at: usize,
    view: &PhaseView,
    entry: Option<&Entry>,
) -> Result<Row<usize>, AllocError>
    requires { at < length needs.now.run.views }
    ensures { IfOk result (λ row. row ≡ option_map_or (λ e. map (service_need items.now.keys (length pairs.now.keys)) (leads_of needs.now at view.now (lacks_services needs.now view.now e))
        ++ filter_map (group_need needs.now items.now.keys pairs.now.keys ways.now at) (lacks_groups needs.now view.now e)) (option_copied entry.entry) []) }
{
    match entry {
        Some(entry) => row_in(alloc, needs, items, pairs, ways, at, view, entry),
        None => Ok(Row::new(alloc)),
    }
}

fn row_at(
    alloc: Global,
    needs: &NeedsRun,
    items: &IndexSet<usize>,
    pairs: &Pairs,
    ways: &PairWays,
    place: (usize, usize),
) -> Result<Row<usize>, AllocError>
    ensures { IfOk result (λ row. row ≡ option_map_or (λ v. option_map_or (λ e. map (service_need items.now.keys (length pairs.now.keys)) (leads_of needs.now place.0 v (lacks_services needs.now v e))
        ++ filter_map (group_need needs.now items.now.keys pairs.now.keys ways.now place.0) (lacks_groups needs.now v e)) (slice_get v.plan place.1) [])
        (slice_get needs.now.run.views place.0) []) }
{
    match needs.run.views.get(place.0) {
        Some(view) => row_by(
            alloc,
            needs,
            items,
            pairs,
            ways,
            place.0,
            view,
            view.plan.get(place.1),
        ),
        None => Ok(Row::new(alloc)),
    }
}

/// The needs of an item.
fn item_row(
    alloc: Global,
    needs: &NeedsRun,
    items: &IndexSet<usize>,
    pairs: &Pairs,
    ways: &PairWays,
    number: usize,
) -> Result<Row<usize>, AllocError>
    ensures { IfOk result (λ row. row ≡ item_row needs.now items.now.keys pairs.now.keys ways.now number) }
{
    match places_of(&needs.run, number) {
        Some(place) => row_at(alloc, needs, items, pairs, ways, place),
        None => Ok(Row::new(alloc)),
    }
}

// ---- the graph

fn push_items(
    alloc: Global,
    needs: &NeedsRun,
    items: &IndexSet<usize>,
    pairs: &Pairs,
    ways: &PairWays,
    rows: &mut Vec<Row<usize>>,
) -> Result<(), AllocError>
    ensures { OnOk result (rows.new.items ≡ rows.old.items ++ map (item_row needs.now items.now.keys pairs.now.keys ways.now) items.now.keys) }
{
    for number in items.as_slice() {
        rows.push(item_row(alloc, needs, items, pairs, ways, *number)?)?;
    }
    Ok(())
}

/// The ways of a group; none where it is not open.
fn ways_or_none(alloc: Global, ways: Option<Row<usize>>) -> Row<usize>
    ensures { result ≡ ways_or_none ways }
{
    match ways {
        Some(ways) => ways,
        None => Row::new(alloc),
    }
}

fn push_ways(alloc: Global, ways: PairWays, rows: &mut Vec<Row<usize>>) -> Result<(), AllocError>
    ensures { OnOk result (rows.new.items ≡ rows.old.items ++ map ways_or_none ways) }
{
    for one in ways.into_vec() {
        rows.push(ways_or_none(alloc, one))?;
    }
    Ok(())
}

fn one(alloc: Global, place: usize) -> Result<Row<usize>, AllocError>
    ensures { IfOk result (λ row. row ≡ place ∷ []) }
{
    let mut row = Row::new(alloc);
    row.push(place)?;
    Ok(row)
}

/// For each item a need that it alone meets.
fn push_ones(alloc: Global, count: usize, rows: &mut Vec<Row<usize>>) -> Result<(), AllocError>
    ensures { OnOk result (rows.new.items ≡ rows.old.items ++ map (λ p. p ∷ []) (range_with_len 0 count)) }
{
    for place in 0..count {
        rows.push(one(alloc, place)?)?;
    }
    Ok(())
}

fn rows_with(
    alloc: Global,
    needs: &NeedsRun,
    items: &IndexSet<usize>,
    pairs: &Pairs,
    ways: PairWays,
) -> Result<Vec<Row<usize>>, AllocError>
    ensures { IfOk result (λ rows. rows.items ≡ rows_with needs.now items.now.keys pairs.now.keys ways) }
{
    let mut rows = Vec::new(alloc);
    push_items(alloc, needs, items, pairs, &ways, &mut rows)?;
    push_ways(alloc, ways, &mut rows)?;
    push_ones(alloc, items.len(), &mut rows)?;
    rows.push(Row::new(alloc))?;
    Ok(rows)
}

/// The graph of the items.
pub(crate) fn shared_rows(
    alloc: Global,
    needs: &NeedsRun,
    items: &IndexSet<usize>,
) -> Result<Vec<Row<usize>>, AllocError>
    ensures waits { IfOk result (λ rows. waits_in (length items.now.keys) rows.items ≡ waits_of needs.now items.now.keys) }
    ensures fits { IfOk result (λ rows. AreWaits (length items.now.keys) rows.items) }
{
    let rows = made_rows(alloc, needs, items)?;
    Ok(rows)
}

fn made_rows(
    alloc: Global,
    needs: &NeedsRun,
    items: &IndexSet<usize>,
) -> Result<Vec<Row<usize>>, AllocError>
    ensures { IfOk result (λ rows. rows.items ≡ shared_rows needs.now items.now.keys) }
{
    let pairs = all_pairs(alloc, needs, items)?;
    let ways = all_ways(alloc, needs, items, pairs.as_slice())?;
    rows_with(alloc, needs, items, &pairs, ways)
}
