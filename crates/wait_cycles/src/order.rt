//! The order in which a walk in depth leaves vertices.

ghost use Rattle.std.specs.Prelude.{◌+◌, ◌*◌, ◌≤◌, not, length, count_by, sum_by, vec_len, OnOk};
ghost use Rattle.std.specs.Option.{option_to_list};
ghost use Rattle.wait_cycles.specs.Working.{to_do};

use least_set::{mark, none_marked};
use nt_bytes::Row;
use std::alloc::{AllocError, Global};

/// The vertices, each when the walk leaves it: one comes after another that it leads to and that does not lead back. Takes time
/// linear in vertices and edges. The order decides how long the search for classes takes and nothing else, so no clause speaks of it.
pub(crate) fn leaving_order(alloc: Global, rows: &[Row<usize>]) -> Result<Vec<usize>, AllocError> {
    let mut rest = copies(alloc, rows)?;
    let mut seen = none_marked(alloc, rows.len())?;
    let mut path = Vec::new(alloc);
    let mut order = Vec::new(alloc);
    for start in 0..rows.len() {
        enter(start, &mut seen, &mut path)?;
        leave_all(&mut rest, &mut seen, &mut path, &mut order)?;
    }
    Ok(order)
}

/// The same lists, to be taken apart.
fn copies(alloc: Global, rows: &[Row<usize>]) -> Result<Vec<Vec<usize>>, AllocError> {
    let mut copies = Vec::new(alloc);
    for row in rows {
        copies.push(Vec::from_slice(alloc, row.as_slice())?)?;
    }
    Ok(copies)
}

/// Walks on until each vertex of the path is left.
fn leave_all(
    rest: &mut Vec<Vec<usize>>,
    seen: &mut Vec<bool>,
    path: &mut Vec<usize>,
    order: &mut Vec<usize>,
) -> Result<(), AllocError> {
    'path: while let Some(at) = path.pop() {
        step(at, rest, seen, path, order)?;
    }
    Ok(())
}

/// Goes along the next edge of the path's last vertex, which was taken off, or leaves it.
fn step(
    at: usize,
    rest: &mut Vec<Vec<usize>>,
    seen: &mut Vec<bool>,
    path: &mut Vec<usize>,
    order: &mut Vec<usize>,
) -> Result<(), AllocError>
    ensures { OnOk result (to_do vec_len rest.new.items seen.new.items path.new.items ≤ to_do vec_len rest.old.items seen.old.items path.old.items) }
{
    match take_edge(rest, at) {
        Some(to) => {
            path.push(at)?;
            enter(to, seen, path)
        }
        None => {
            order.push(at)?;
            Ok(())
        }
    }
}

/// The next edge of the vertex, which is taken out.
fn take_edge(rest: &mut Vec<Vec<usize>>, at: usize) -> Option<usize>
    ensures { sum_by vec_len rest.new.items + length (option_to_list result) ≤ sum_by vec_len rest.old.items }
{
    if at < rest.len() {
        rest[at].pop()
    } else {
        None
    }
}

/// Puts the vertex at the end of the path, unless it was seen.
fn enter(at: usize, seen: &mut Vec<bool>, path: &mut Vec<usize>) -> Result<(), AllocError>
    ensures { OnOk result (2 * count_by not seen.new.items + length path.new.items ≤ 2 * count_by not seen.old.items + length path.old.items) }
{
    if at < seen.len() {
        mark(at, seen, path)?;
    }
    Ok(())
}
