//! Places that wait for one another.

ghost use Rattle.std.specs.Prelude.{◌≡◌, ℕ, ◌≤◌, [], ◌∷◌, ◌++◌, List, not, filter, length, slice_index, slice_set, IfOk, OnOk};
ghost use Rattle.std.specs.List.{flat_map, range_with_len};
ghost use Rattle.start_model.specs.Demand.{member};
ghost use Rattle.wait_cycles.specs.Waits.{begins_with, cycles_of};
ghost use Rattle.wait_cycles.specs.Graph.{AreWaits, AreLeads, IsInverse, row_at, waits_in, left_rows};
ghost use Rattle.wait_cycles.specs.Classes.{AreMembers, first_from};

use crate::classes::classes;
use crate::inverse::{empty_rows, inverse};
use crate::met::met;
use crate::reach::row_at;
use least_set::is_marked;
use nt_bytes::Row;
use std::alloc::{AllocError, Global};

/// The cycles of places that wait for one another. The first vertices are the places: each leads to its needs. The others
/// are the needs: each leads to its ways.
pub fn cycles(
    alloc: Global,
    rows: &[Row<usize>],
    places: usize,
) -> Result<Row<Row<usize>>, AllocError>
    requires { AreWaits places rows.now }
    ensures { IfOk result (λ cycles. cycles ≡ cycles_of (waits_in places rows.now)) }
{
    let back = inverse(alloc, rows)?;
    let marks = met(alloc, rows, back.as_slice(), places)?;
    let left = left_rows(alloc, marks.as_slice(), rows)?;
    let back = inverse(alloc, left.as_slice())?;
    found(alloc, left.as_slice(), back.as_slice(), places)
}

/// The edges to what isn't marked.
fn left_rows(
    alloc: Global,
    marks: &[bool],
    rows: &[Row<usize>],
) -> Result<Vec<Row<usize>>, AllocError>
    ensures { IfOk result (λ left. left.items ≡ left_rows marks.now rows.now) }
{
    let mut left = Vec::new(alloc);
    for row in rows {
        left.push(left_row(alloc, marks, row.as_slice())?)?;
    }
    Ok(left)
}

fn left_row(alloc: Global, marks: &[bool], row: &[usize]) -> Result<Row<usize>, AllocError>
    ensures { IfOk result (λ left. left ≡ filter (λ v. not (member marks.now v)) row.now) }
{
    let mut left = Row::new(alloc);
    for at in row {
        if !is_marked(marks, *at) {
            left.push(*at)?;
        }
    }
    Ok(left)
}

/// The cycles that these edges, and the same turned round, lead through.
fn found(
    alloc: Global,
    rows: &[Row<usize>],
    back: &[Row<usize>],
    places: usize,
) -> Result<Row<Row<usize>>, AllocError>
    requires rows { AreWaits places rows.now }
    requires back { IsInverse rows.now back.now }
    ensures { IfOk result (λ cycles. (waits : List (List (List ℕ))) → AreLeads waits places rows.now → cycles ≡ cycles_of waits) }
{
    let classes = classes(alloc, rows, back)?;
    let members = members(alloc, classes.as_slice(), places)?;
    cycles_in(alloc, classes.as_slice(), members.as_slice(), places)
}

/// For each class its places, rising.
fn members(alloc: Global, classes: &[usize], places: usize) -> Result<Vec<Row<usize>>, AllocError>
    requires { places ≤ length classes.now }
    ensures { IfOk result (λ members. AreMembers classes.now places members.items) }
{
    let mut members = empty_rows(alloc, classes.len())?;
    for place in 0..places {
        put_member(place, classes[place], &mut members)?;
    }
    Ok(members)
}

/// Puts the place at the end of the list of the class, if there is such a class.
fn put_member(place: usize, class: usize, members: &mut Vec<Row<usize>>) -> Result<(), AllocError>
    ensures { OnOk result (members.new.items ≡ slice_set members.old.items class (row_at members.old.items class ++ place ∷ [])) }
{
    if class < members.len() {
        members[class].push(place)?;
    }
    Ok(())
}

/// The list of each class on a cycle, at the first of its places.
fn cycles_in(
    alloc: Global,
    classes: &[usize],
    members: &[Row<usize>],
    places: usize,
) -> Result<Row<Row<usize>>, AllocError>
    requires { places ≤ length classes.now }
    ensures { IfOk result (λ cycles. cycles ≡ flat_map (λ p. first_from p (row_at members.now (slice_index classes.now p))) (range_with_len 0 places)) }
{
    let mut cycles = Row::new(alloc);
    for place in 0..places {
        put_cycle(alloc, place, row_at(members, classes[place]), &mut cycles)?;
    }
    Ok(cycles)
}

/// Appends the cycle, if this place is its first.
fn put_cycle(
    alloc: Global,
    place: usize,
    cycle: &[usize],
    cycles: &mut Row<Row<usize>>,
) -> Result<(), AllocError>
    ensures { OnOk result (cycles.new ≡ cycles.old ++ first_from place cycle.now) }
{
    if begins_with(place, cycle) {
        cycles.push(Row::from_vec(Vec::from_slice(alloc, cycle)?))?;
    }
    Ok(())
}

fn begins_with(place: usize, places: &[usize]) -> bool
    ensures { result ≡ begins_with place places.now }
{
    match places.first() {
        Some(first) => place == *first,
        None => false,
    }
}
