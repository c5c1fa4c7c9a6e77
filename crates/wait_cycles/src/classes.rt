//! Which vertices lead to one another.
//!
//! The class of a vertex that is on a cycle is what leads to it and is led to by it. One walk finds what leads to it, and a second one
//! what it leads to over that. Both go over vertices without a class alone, which is right in whatever order vertices get theirs, since
//! no path between two of one class leaves it. In the order of `leaving_order`, from its end, all that leads to a vertex over such
//! vertices is of its class: so both walks go over the class alone, and the time is linear in vertices and edges.

ghost use Rattle.std.specs.Prelude.{◌≡◌, ◌<◌, length, replicate, slice_index, IfOk, OnOk};
ghost use Rattle.wait_cycles.specs.Graph.{AreEdges, IsInverse};
ghost use Rattle.wait_cycles.specs.Classes.{AreClasses, AddsClass, SayMutual};

use crate::order::leaving_order;
use crate::walks::{has, walk};
use nt_bytes::Row;
use std::alloc::{AllocError, Global};

/// For each vertex the number of its class, which is that of a vertex of it, or one past all vertices where it is on no cycle.
pub(crate) fn classes(
    alloc: Global,
    rows: &[Row<usize>],
    back: &[Row<usize>],
) -> Result<Vec<usize>, AllocError>
    requires edges { AreEdges rows.now }
    requires back { IsInverse rows.now back.now }
    ensures { IfOk result (λ classes. SayMutual rows.now classes.items) }
{
    let mut order = leaving_order(alloc, rows)?;
    let mut before = no_numbers(alloc, rows)?;
    let mut classes = no_numbers(alloc, rows)?;
    'order: while let Some(root) = order.pop() {
        put_class(alloc, rows, back, root, &mut before, &mut classes)?;
    }
    put_rest(alloc, rows, back, &mut before, &mut classes)?;
    Ok(classes)
}

/// For each vertex the number that says that it has none yet.
fn no_numbers(alloc: Global, rows: &[Row<usize>]) -> Result<Vec<usize>, AllocError>
    ensures { IfOk result (λ numbers. numbers.items ≡ replicate (length rows.now) (length rows.now)) }
{
    vec![in alloc; rows.len(); rows.len()]
}

/// Finds the class of each vertex that has none yet. Such are left only where the order lacked them.
fn put_rest(
    alloc: Global,
    rows: &[Row<usize>],
    back: &[Row<usize>],
    before: &mut Vec<usize>,
    classes: &mut Vec<usize>,
) -> Result<(), AllocError>
    requires edges { AreEdges rows.now }
    requires back { IsInverse rows.now back.now }
    requires classes { AreClasses rows.now before.old.items classes.old.items }
    ensures { OnOk result (SayMutual rows.now classes.new.items) }
{
    for root in 0..rows.len() {
        put_class(alloc, rows, back, root, before, classes)?;
    }
    Ok(())
}

/// Finds the class of the vertex, if it has none yet.
fn put_class(
    alloc: Global,
    rows: &[Row<usize>],
    back: &[Row<usize>],
    root: usize,
    before: &mut Vec<usize>,
    classes: &mut Vec<usize>,
) -> Result<(), AllocError>
    requires edges { AreEdges rows.now }
    requires back { IsInverse rows.now back.now }
    requires classes { AreClasses rows.now before.old.items classes.old.items }
    ensures { OnOk result (AddsClass rows.now root classes.old.items before.new.items classes.new.items) }
{
    if has(classes.as_slice(), root, rows.len()) {
        find_class(alloc, rows, back, root, before, classes)?;
    }
    Ok(())
}

/// Numbers what leads to the vertex, and of that its class: what the vertex leads to. It is marked as on no cycle in between, so that it
/// is so where the second walk does not come back to it.
fn find_class(
    alloc: Global,
    rows: &[Row<usize>],
    back: &[Row<usize>],
    root: usize,
    before: &mut Vec<usize>,
    classes: &mut Vec<usize>,
) -> Result<(), AllocError>
    requires edges { AreEdges rows.now }
    requires back { IsInverse rows.now back.now }
    requires classes { AreClasses rows.now before.old.items classes.old.items }
    requires root { root < length rows.now }
    requires open { slice_index classes.old.items root ≡ length rows.now }
    ensures { OnOk result (AddsClass rows.now root classes.old.items before.new.items classes.new.items) }
{
    walk(alloc, back, root, classes.as_slice(), rows.len(), before)?;
    classes[root] = rows.len() + 1;
    walk(alloc, rows, root, before.as_slice(), root, classes)
}
