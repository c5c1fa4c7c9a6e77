//! Edges turned round.

ghost use Rattle.std.specs.Prelude.{◌≡◌, ◌<◌, [], ◌∷◌, All, length, replicate, IfOk, OnOk};
ghost use Rattle.wait_cycles.specs.Graph.{AreEdges, IsInverse, PutsEdges};

use nt_bytes::Row;
use std::alloc::{AllocError, Global};

/// The same edges, each the other way. Takes time linear in them.
pub fn inverse(alloc: Global, rows: &[Row<usize>]) -> Result<Vec<Row<usize>>, AllocError>
    requires { AreEdges rows.now }
    ensures { IfOk result (λ back. IsInverse rows.now back.items) }
{
    let mut back = empty_rows(alloc, rows.len())?;
    for (from, row) in rows.iter().enumerate() {
        put_edges(row.as_slice(), from, &mut back)?;
    }
    Ok(back)
}

/// That many empty lists.
pub(crate) fn empty_rows(alloc: Global, count: usize) -> Result<Vec<Row<usize>>, AllocError>
    ensures { IfOk result (λ rows. rows.items ≡ replicate count []) }
{
    let mut rows = Vec::new(alloc);
    for _ in 0..count {
        rows.push(Row::new(alloc))?;
    }
    Ok(rows)
}

/// Puts in an edge from each of these vertices to `end`.
fn put_edges(row: &[usize], end: usize, back: &mut Vec<Row<usize>>) -> Result<(), AllocError>
    requires { All (λ v. v < length back.old.items) row.now }
    ensures { OnOk result (PutsEdges row.now end back.old.items back.new.items) }
{
    for from in row {
        put_edge(*from, end, back)?;
    }
    Ok(())
}

fn put_edge(from: usize, end: usize, back: &mut Vec<Row<usize>>) -> Result<(), AllocError>
    requires { from < length back.old.items }
    ensures { OnOk result (PutsEdges (from ∷ []) end back.old.items back.new.items) }
{
    back[from].push(end)
}
