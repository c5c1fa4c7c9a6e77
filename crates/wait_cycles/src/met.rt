//! What is met in the end.
//!
//! A place is looked at again whenever one more of its needs is met, and goes on then from its first need that was not known to
//! be met. A need is looked at when one of its ways was just marked, and so is met at once. So the time is linear in the edges.

ghost use Rattle.std.specs.Prelude.{◌≡◌, ◌<◌, ◌&&◌, [], ◌∷◌, true, false, not, nat_le, nat_lt, All, length, replicate, slice_index, take, IfOk, OnOk};
ghost use Rattle.std.specs.List.{list_any, list_all, range_with_len};
ghost use Rattle.start_model.specs.Demand.{member};
ghost use Rattle.wait_cycles.specs.Graph.{AreWaits, IsInverse, IsMet, Settles, is_ripe, row_at};
ghost use Rattle.wait_cycles.specs.Working.{IsSettling, AreFirsts};

use crate::reach::row_at;
use least_set::{is_marked, none_marked};
use nt_bytes::Row;
use std::alloc::{AllocError, Global};

/// For each vertex, whether it is met: a place by all its needs, a need by one of its ways. Takes time linear in the edges.
pub fn met(
    alloc: Global,
    rows: &[Row<usize>],
    back: &[Row<usize>],
    places: usize,
) -> Result<Vec<bool>, AllocError>
    requires waits { AreWaits places rows.now }
    requires back { IsInverse rows.now back.now }
    ensures { IfOk result (λ marks. IsMet rows.now places marks.items) }
{
    let mut marks = none_marked(alloc, rows.len())?;
    let mut firsts = vec![in alloc; 0; rows.len()]?;
    let mut work = Vec::new(alloc);
    begin(alloc, rows, places, &mut firsts, &mut marks, &mut work)?;
    'work: while let Some(at) = work.pop() {
        settle_all(
            rows,
            places,
            row_at(back, at),
            &mut firsts,
            &mut marks,
            &mut work,
        )?;
    }
    Ok(marks)
}

/// Marks the places without needs.
fn begin(
    alloc: Global,
    rows: &[Row<usize>],
    places: usize,
    firsts: &mut Vec<usize>,
    marks: &mut Vec<bool>,
    work: &mut Vec<usize>,
) -> Result<(), AllocError>
    requires waits { AreWaits places rows.now }
    requires firsts { AreFirsts rows.now marks.old.items firsts.old.items }
    requires marks { marks.old.items ≡ replicate (length rows.now) false }
    requires work { work.old.items ≡ [] }
    ensures settling { OnOk result (IsSettling rows.now places marks.new.items work.new.items) }
    ensures firsts { OnOk result (AreFirsts rows.now marks.new.items firsts.new.items) }
{
    let all = all_places(alloc, places)?;
    settle_all(rows, places, all.as_slice(), firsts, marks, work)
}

fn all_places(alloc: Global, count: usize) -> Result<Row<usize>, AllocError>
    ensures { IfOk result (λ places. places ≡ range_with_len 0 count) }
{
    let mut places = Row::new(alloc);
    for place in 0..count {
        places.push(place)?;
    }
    Ok(places)
}

/// Marks those of these vertices that are met, and notes as work what was not marked before.
fn settle_all(
    rows: &[Row<usize>],
    places: usize,
    us: &[usize],
    firsts: &mut Vec<usize>,
    marks: &mut Vec<bool>,
    work: &mut Vec<usize>,
) -> Result<(), AllocError>
    requires firsts { AreFirsts rows.now marks.old.items firsts.old.items }
    requires marks { length marks.old.items ≡ length rows.now }
    requires within { All (λ u. u < length rows.now) us.now }
    ensures settled { OnOk result (Settles rows.now places us.now marks.old.items work.old.items marks.new.items work.new.items) }
    ensures firsts { OnOk result (AreFirsts rows.now marks.new.items firsts.new.items) }
{
    for at in us {
        settle(rows, places, *at, firsts, marks, work)?;
    }
    Ok(())
}

fn settle(
    rows: &[Row<usize>],
    places: usize,
    at: usize,
    firsts: &mut Vec<usize>,
    marks: &mut Vec<bool>,
    work: &mut Vec<usize>,
) -> Result<(), AllocError>
    requires firsts { AreFirsts rows.now marks.old.items firsts.old.items }
    requires marks { length marks.old.items ≡ length rows.now }
    requires at { at < length rows.now }
    ensures settled { OnOk result (Settles rows.now places (at ∷ []) marks.old.items work.old.items marks.new.items work.new.items) }
    ensures firsts { OnOk result (AreFirsts rows.now marks.new.items firsts.new.items) }
{
    if is_due(rows, places, at, firsts, marks.as_slice()) {
        marks[at] = true;
        work.push(at)?;
    }
    Ok(())
}

/// Whether the vertex isn't marked and is met by what is.
fn is_due(
    rows: &[Row<usize>],
    places: usize,
    at: usize,
    firsts: &mut Vec<usize>,
    marks: &[bool],
) -> bool
    requires firsts { AreFirsts rows.now marks.now firsts.old.items }
    requires at { at < length rows.now }
    ensures due { result ≡ (not (member marks.now at) && is_ripe rows.now places (member marks.now) at) }
    ensures firsts { AreFirsts rows.now marks.now firsts.new.items }
{
    if is_marked(marks, at) {
        return false;
    }
    is_ripe(rows, places, at, firsts, marks)
}

fn is_ripe(
    rows: &[Row<usize>],
    places: usize,
    at: usize,
    firsts: &mut Vec<usize>,
    marks: &[bool],
) -> bool
    requires firsts { AreFirsts rows.now marks.now firsts.old.items }
    requires at { at < length rows.now }
    ensures ripe { result ≡ is_ripe rows.now places (member marks.now) at }
    ensures firsts { AreFirsts rows.now marks.now firsts.new.items }
{
    if at < places {
        are_all(rows, at, firsts, marks)
    } else {
        is_any(marks, row_at(rows, at))
    }
}

/// Whether all that is in this list is marked. Goes on from the first of it that was not known to be.
fn are_all(rows: &[Row<usize>], at: usize, firsts: &mut Vec<usize>, marks: &[bool]) -> bool
    requires firsts { AreFirsts rows.now marks.now firsts.old.items }
    requires at { at < length rows.now }
    ensures all { result ≡ list_all (member marks.now) (row_at rows.now at) }
    ensures firsts { AreFirsts rows.now marks.now firsts.new.items }
{
    let row = row_at(rows, at);
    let first = first_open(marks, row, firsts[at]);
    firsts[at] = first;
    row.len() <= first
}

/// How many at the front of the list are marked, where that many are known to be.
fn first_open(marks: &[bool], row: &[usize], known: usize) -> usize
    requires { list_all (member marks.now) (take known row.now) ≡ true }
    ensures marked { list_all (member marks.now) (take result row.now) ≡ true }
    ensures all { nat_le (length row.now) result ≡ list_all (member marks.now) row.now }
{
    let mut first = known;
    'first: while has_mark(marks, row, first) {
        first += 1;
    }
    first
}

/// Whether the list has this entry, and it is marked.
fn has_mark(marks: &[bool], row: &[usize], entry: usize) -> bool
    ensures { result ≡ (nat_lt entry (length row.now) && member marks.now (slice_index row.now entry)) }
{
    entry < row.len() && is_marked(marks, row[entry])
}

fn is_any(marks: &[bool], row: &[usize]) -> bool
    ensures { result ≡ list_any (member marks.now) row.now }
{
    row.iter().any(|at| is_marked(marks, *at))
}
