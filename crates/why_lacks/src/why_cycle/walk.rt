//! A walk among items that aren't freed.

ghost use Rattle.std.specs.Prelude.{◌≡◌, ◌≤◌, ◌∷◌, ◌++◌, [], None, not, nat_eq, find, map, length, position, drop, slice_get, IfOk, OnOk};
ghost use Rattle.std.specs.Option.{option_and_then};
ghost use Rattle.std.specs.List.{list_any};
ghost use Rattle.start_model.specs.Demand.{member};
ghost use Rattle.wait_cycles.specs.Graph.{row_at, waits_in};
ghost use Rattle.wait_cycles.specs.Waits.{needs_at};
ghost use Rattle.why_lacks.specs.why_cycle.Walk.{step, gone_round, cycle_of};

use crate::why_cycle::freed::is_freed;
use crate::why_items::add;
use indexmap::IndexSet;
use nt_bytes::Row;
use std::alloc::{AllocError, Global};

/// The row at a place; none past the last one.
fn row_at(rows: &[Row<usize>], place: usize) -> &[usize]
    ensures { result.now ≡ row_at rows.now place }
{
    match rows.get(place) {
        Some(row) => row.as_slice(),
        None => &[],
    }
}

/// The needs of the item at a place, of that many items.
fn needs_at(rows: &[Row<usize>], count: usize, place: usize) -> &[usize]
    ensures { map (row_at rows.now) result.now ≡ needs_at (waits_in count rows.now) place }
{
    if place < count {
        row_at(rows, place)
    } else {
        &[]
    }
}

/// Whether one of the ways is freed.
fn is_any(freed: &[bool], ways: &[usize]) -> bool
    ensures { result ≡ list_any (member freed.now) ways.now }
{
    ways.iter().any(|place| is_freed(freed, *place))
}

/// Whether none is.
fn is_held(freed: &[bool], ways: &[usize]) -> bool
    ensures { result ≡ not (list_any (member freed.now) ways.now) }
{
    !is_any(freed, ways)
}

/// Where the first of the needs leads that is without a freed way.
fn first_held(rows: &[Row<usize>], freed: &[bool], needs: &[usize]) -> Option<usize>
    ensures { result ≡ option_and_then (λ ways. slice_get ways 0) (find (λ ways. not (list_any (member freed.now) ways)) (map (row_at rows.now) needs.now)) }
{
    let mut rest = needs;
    'need: loop {
        let [need, more @ ..] = rest else {
            return None;
        };
        let ways = row_at(rows, *need);
        if is_held(freed, ways) {
            return ways.first().copied();
        }
        rest = more;
    }
}

/// A step from the item at a place, of that many.
fn step(rows: &[Row<usize>], count: usize, freed: &[bool], place: usize) -> Option<usize>
    ensures { result ≡ step (waits_in count rows.now) (member freed.now) place }
{
    first_held(rows, freed, needs_at(rows, count, place))
}

/// The numbers from a place on.
fn from(alloc: Global, numbers: &[usize], at: usize) -> Result<Row<usize>, AllocError>
    ensures { IfOk result (λ row. row ≡ drop at numbers.now) }
{
    let mut row = Vec::new(alloc);
    let at = at.min(numbers.len());
    row.extend_from_slice(&numbers[at..])?;
    Ok(Row::from_vec(row))
}

/// Where an item is on the path.
fn place_on(path: &IndexSet<usize>, place: usize) -> Option<usize>
    ensures { result ≡ position (nat_eq place) path.now.keys }
{
    path.get_index_of(&place)
}

/// Puts an item at the end of the path.
fn put(place: usize, path: &mut IndexSet<usize>) -> Result<(), AllocError>
    requires { position (nat_eq place) path.old.keys ≡ None }
    ensures { OnOk result (path.new.keys ≡ path.old.keys ++ place ∷ []) }
{
    path.insert(place)?;
    Ok(())
}

/// The items that a walk from the first one goes round.
fn gone_round(
    alloc: Global,
    rows: &[Row<usize>],
    count: usize,
    freed: &[bool],
    most: usize,
) -> Result<Row<usize>, AllocError>
    ensures { IfOk result (λ row. row ≡ gone_round (step (waits_in count rows.now) (member freed.now)) most [] 0) }
{
    let mut path = IndexSet::new(alloc);
    let mut place = 0;
    let mut left = most;
    'item: while left != 0 {
        match place_on(&path, place) {
            Some(at) => return from(alloc, path.as_slice(), at),
            None => put(place, &mut path)?,
        }
        match step(rows, count, freed, place) {
            Some(next) => place = next,
            None => return Ok(Row::new(alloc)),
        }
        left -= 1;
    }
    Ok(Row::new(alloc))
}

/// The same, where the first one isn't freed.
pub(crate) fn cycle_of(
    alloc: Global,
    rows: &[Row<usize>],
    count: usize,
    freed: &[bool],
) -> Result<Row<usize>, AllocError>
    requires { count ≤ length rows.now }
    ensures { IfOk result (λ row. row ≡ cycle_of (waits_in count rows.now) (member freed.now)) }
{
    if is_freed(freed, 0) {
        return Ok(Row::new(alloc));
    }
    let most = add(count, 1)?;
    gone_round(alloc, rows, count, freed, most)
}
