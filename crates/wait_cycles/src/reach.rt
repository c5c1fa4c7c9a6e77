//! What edges lead to.

ghost use Rattle.std.specs.Prelude.{◌≡◌, IfOk};
ghost use Rattle.least_set.specs.Edges.{row_at, AreEdges};
ghost use Rattle.wait_cycles.specs.Graph.{IsReach};

use least_set::{Edges, least_set};
use nt_bytes::Row;
use std::alloc::{AllocError, Global};

/// For each vertex, whether one or more edges lead to it from the start. Takes time linear in the edges.
pub fn reach(alloc: Global, rows: &[Row<usize>], start: usize) -> Result<Vec<bool>, AllocError>
    requires { AreEdges rows.now }
    ensures { IfOk result (λ marks. IsReach rows.now start marks.items) }
{
    let edges = RowEdges { rows };
    let marks = least_set(alloc, &edges, row_at(rows, start))?;
    Ok(marks)
}

/// The edges of a list of rows.
#[derive(Drop)]
struct RowEdges<'a> {
    rows: &'a [Row<usize>],
}

impl Edges for RowEdges<'_> {
    ghost rows = { λ edges. edges.rows.now };

    fn count(&self) -> usize {
        self.rows.len()
    }

    fn row(&self, alloc: Global, at: usize) -> Result<Row<usize>, AllocError> {
        Ok(Row::from_vec(Vec::from_slice(alloc, row_at(self.rows, at))?))
    }
}

/// The list at a vertex, which is empty past the last one.
pub(crate) fn row_at(rows: &[Row<usize>], at: usize) -> &[usize]
    ensures { result.now ≡ row_at rows.now at }
{
    match rows.get(at) {
        Some(row) => row.as_slice(),
        None => &[],
    }
}
