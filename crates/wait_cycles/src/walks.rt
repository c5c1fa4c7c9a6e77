//! Walks over some vertices of a graph, which put a number on what they reach.

ghost use Rattle.std.specs.Prelude.{◌≡◌, ℕ, ◌<◌, ◌&&◌, [], ◌∷◌, false, not, All, filter, length, OnOk};
ghost use Rattle.start_model.specs.Demand.{member};
ghost use Rattle.wait_cycles.specs.Graph.{AreEdges};
ghost use Rattle.wait_cycles.specs.Classes.{which, Numbers, IsWalked};

use crate::reach::row_at;
use nt_bytes::Row;
use std::alloc::{AllocError, Global};

/// Puts the number of the start on what edges lead to from it over vertices that have this key. No vertex had that number before, so
/// that a walk needs no marks of its own. Takes time linear in the edges of what gets the number.
pub(crate) fn walk(
    alloc: Global,
    rows: &[Row<usize>],
    start: usize,
    keys: &[usize],
    key: usize,
    numbers: &mut Vec<usize>,
) -> Result<(), AllocError>
    requires edges { AreEdges rows.now }
    requires len { length numbers.old.items ≡ length rows.now }
    requires unused { (v : ℕ) → member (which start numbers.old.items) v ≡ false }
    ensures { OnOk result (IsWalked rows.now start (which key keys.now) numbers.old.items numbers.new.items) }
{
    let mut work = Vec::new(alloc);
    number_all(row_at(rows, start), start, keys, key, numbers, &mut work)?;
    'work: while let Some(at) = work.pop() {
        number_all(row_at(rows, at), start, keys, key, numbers, &mut work)?;
    }
    Ok(())
}

/// Puts the number on those of these vertices that have the key, and notes as work what had another number before.
fn number_all(
    row: &[usize],
    number: usize,
    keys: &[usize],
    key: usize,
    numbers: &mut Vec<usize>,
    work: &mut Vec<usize>,
) -> Result<(), AllocError>
    requires { All (λ v. v < length numbers.old.items) row.now }
    ensures { OnOk result (Numbers number (filter (member (which key keys.now)) row.now) numbers.old.items work.old.items numbers.new.items work.new.items) }
{
    for at in row {
        number_one(*at, number, keys, key, numbers, work)?;
    }
    Ok(())
}

fn number_one(
    at: usize,
    number: usize,
    keys: &[usize],
    key: usize,
    numbers: &mut Vec<usize>,
    work: &mut Vec<usize>,
) -> Result<(), AllocError>
    requires { at < length numbers.old.items }
    ensures { OnOk result (Numbers number (filter (member (which key keys.now)) (at ∷ [])) numbers.old.items work.old.items numbers.new.items work.new.items) }
{
    if is_new(at, number, keys, key, numbers.as_slice()) {
        numbers[at] = number;
        work.push(at)?;
    }
    Ok(())
}

fn is_new(at: usize, number: usize, keys: &[usize], key: usize, numbers: &[usize]) -> bool
    ensures { result ≡ (member (which key keys.now) at && not (member (which number numbers.now) at)) }
{
    has(keys, at, key) && !has(numbers, at, number)
}

/// Whether the vertex has this number.
pub(crate) fn has(numbers: &[usize], at: usize, number: usize) -> bool
    ensures { result ≡ member (which number numbers.now) at }
{
    match numbers.get(at) {
        Some(other) => *other == number,
        None => false,
    }
}
