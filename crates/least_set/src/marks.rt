//! Marks of vertices, and the work that new ones make.

ghost use Rattle.std.specs.Prelude.{◌≡◌, ◌<◌, ◌∷◌, [], false, not, All, length, replicate, IfOk, OnOk};
ghost use Rattle.least_set.specs.Edges.{is_marked};
ghost use Rattle.least_set.specs.Work.{Marks};

use std::alloc::{AllocError, Global};

/// No mark of that many.
pub fn none_marked(alloc: Global, count: usize) -> Result<Vec<bool>, AllocError>
    ensures { IfOk result (λ marks. marks.items ≡ replicate count false) }
{
    vec![in alloc; false; count]
}

/// Whether the vertex is marked.
pub fn is_marked(marks: &[bool], at: usize) -> bool
    ensures { result ≡ is_marked marks.now at }
{
    match marks.get(at) {
        Some(mark) => *mark,
        None => false,
    }
}

fn is_open(marks: &[bool], at: usize) -> bool
    ensures { result ≡ not (is_marked marks.now at) }
{
    !is_marked(marks, at)
}

/// Marks these vertices, and notes as work what was not marked before.
pub(crate) fn mark_all(
    row: &[usize],
    marks: &mut Vec<bool>,
    work: &mut Vec<usize>,
) -> Result<(), AllocError>
    requires { All (λ v. v < length marks.old.items) row.now }
    ensures { OnOk result (Marks row.now marks.old.items work.old.items marks.new.items work.new.items) }
{
    for at in row {
        mark(*at, marks, work)?;
    }
    Ok(())
}

/// Marks the vertex, and notes it as work if it was not marked before.
pub fn mark(at: usize, marks: &mut Vec<bool>, work: &mut Vec<usize>) -> Result<(), AllocError>
    requires { at < length marks.old.items }
    ensures { OnOk result (Marks (at ∷ []) marks.old.items work.old.items marks.new.items work.new.items) }
{
    if is_open(marks.as_slice(), at) {
        marks[at] = true;
        work.push(at)?;
    }
    Ok(())
}
