//! The search for the least set, by a list of work.

ghost use Rattle.std.specs.Prelude.{◌≡◌, ◌<◌, ℕ, List, All, length, IfOk};
ghost use Rattle.least_set.specs.Edges.{AreEdges, IsLeast, row_at};

use crate::marks::{mark_all, none_marked};
use nt_bytes::Row;
use std::alloc::{AllocError, Global};

/// What each of some vertices leads to.
pub trait Edges {
    /// For each vertex, those to which an edge leads from it.
    ghost rows: { Self → List (List ℕ) };

    /// How many vertices there are.
    fn count(&self) -> usize
        ensures { result ≡ length (rows self.now) };

    /// Those to which an edge leads from this vertex.
    fn row(&self, alloc: Global, at: usize) -> Result<Row<usize>, AllocError>
        requires { at < length (rows self.now) }
        ensures { IfOk result (λ row. row ≡ row_at (rows self.now) at) };
}

/// For each vertex, whether it is a first one, or edges lead to it from one. Asks once for the row of each such vertex, and takes
/// time linear in these rows.
pub fn least_set<E: Edges>(
    alloc: Global,
    edges: &E,
    firsts: &[usize],
) -> Result<Vec<bool>, AllocError>
    requires edges { AreEdges (E.rows edges.now) }
    requires firsts { All (λ v. v < length (E.rows edges.now)) firsts.now }
    ensures { IfOk result (λ marks. IsLeast (E.rows edges.now) firsts.now marks.items) }
{
    let mut marks = none_marked(alloc, edges.count())?;
    let mut work = Vec::new(alloc);
    mark_all(firsts, &mut marks, &mut work)?;
    'work: while let Some(at) = work.pop() {
        let row = edges.row(alloc, at)?;
        mark_all(row.as_slice(), &mut marks, &mut work)?;
    }
    Ok(marks)
}
