//! Which part of the graph is shown.

ghost use Rattle.std.specs.Prelude.{◌≡◌, ◌<◌, map, length, nat_eq, ◌||◌, IfOk, IfSome};
ghost use Rattle.std.specs.List.{list_any, range_with_len};
ghost use Rattle.start_model.specs.Demand.{member};
ghost use Rattle.wait_cycles.specs.Graph.{AreEdges, IsInverse, row_at};
ghost use Rattle.graph_rule.specs.Shown.{is_entry, is_taken, is_shown_of_all, is_shown_about, marks_of};

use crate::rows::is_untaken;
use crate::whole::WholeGraph;
use answer_lines::graph_lines::{GraphNode, NodeKind};
use nt_bytes::Row;
use std::alloc::{AllocError, Global};
use wait_cycles::inverse::inverse;
use wait_cycles::reach::reach;

fn is_entry(kind: NodeKind) -> bool
    ensures { result ≡ is_entry kind }
{
    match kind {
        NodeKind::Entry => true,
        NodeKind::Missing => false,
        NodeKind::Group => false,
    }
}

/// Whether the vertex is an entry that is not untaken.
fn is_taken(nodes: &[GraphNode], at: usize) -> bool
    ensures { result ≡ is_taken nodes.now at }
{
    match nodes.get(at) {
        Some(node) => is_entry(node.kind) && !is_untaken(node.state),
        None => false,
    }
}

/// The list at a vertex.
pub(crate) fn row_at(rows: &[Row<usize>], at: usize) -> &[usize]
    ensures { result.now ≡ row_at rows.now at }
{
    match rows.get(at) {
        Some(row) => row.as_slice(),
        None => &[],
    }
}

fn is_any_taken(nodes: &[GraphNode], row: &[usize]) -> bool
    ensures { result ≡ list_any (is_taken nodes.now) row.now }
{
    row.iter().any(|at| is_taken(nodes, *at))
}

/// Whether a vertex is shown where no name is asked for, by the edges turned round.
fn is_shown(nodes: &[GraphNode], back: &[Row<usize>], at: usize) -> bool
    ensures { result ≡ (is_taken nodes.now at || list_any (is_taken nodes.now) (row_at back.now at)) }
{
    is_taken(nodes, at) || is_any_taken(nodes, row_at(back, at))
}

/// Which vertices are shown where no name is asked for.
fn marks_of_all(
    alloc: Global,
    nodes: &[GraphNode],
    rows: &[Row<usize>],
    back: &[Row<usize>],
) -> Result<Vec<bool>, AllocError>
    requires { IsInverse rows.now back.now }
    ensures { IfOk result (λ marks. marks.items ≡ map (is_shown_of_all nodes.now rows.now) (range_with_len 0 (length rows.now))) }
{
    let mut marks = Vec::new(alloc);
    for at in 0..rows.len() {
        marks.push(is_shown(nodes, back, at))?;
    }
    Ok(marks)
}

fn is_marked(marks: &[bool], at: usize) -> bool
    ensures { result ≡ member marks.now at }
{
    match marks.get(at) {
        Some(mark) => *mark,
        None => false,
    }
}

/// Whether the vertex is this one, or is marked on the one side or the other.
fn is_about(start: usize, on: &[bool], to: &[bool], at: usize) -> bool
    ensures { result ≡ (nat_eq start at || (member on.now at || member to.now at)) }
{
    start == at || (is_marked(on, at) || is_marked(to, at))
}

/// Which vertices are shown by what is marked on the one side and on the other.
fn either(
    alloc: Global,
    start: usize,
    on: &[bool],
    to: &[bool],
    count: usize,
) -> Result<Vec<bool>, AllocError>
    ensures { IfOk result (λ marks. marks.items ≡ map (λ at. nat_eq start at || (member on.now at || member to.now at)) (range_with_len 0 count)) }
{
    let mut marks = Vec::new(alloc);
    for at in 0..count {
        marks.push(is_about(start, on, to, at))?;
    }
    Ok(marks)
}

/// Which vertices are shown where the name of this one is asked for.
fn marks_about(
    alloc: Global,
    rows: &[Row<usize>],
    back: &[Row<usize>],
    start: usize,
) -> Result<Vec<bool>, AllocError>
    requires edges { AreEdges rows.now }
    requires back { IsInverse rows.now back.now }
    requires start { start < length rows.now }
    ensures { IfOk result (λ marks. marks.items ≡ map (is_shown_about rows.now start) (range_with_len 0 (length rows.now))) }
{
    let on = reach(alloc, rows, start)?;
    let to = reach(alloc, back, start)?;
    either(alloc, start, on.as_slice(), to.as_slice(), rows.len())
}

/// Which vertices are shown. Takes time linear in the edges.
pub(crate) fn marks_of(alloc: Global, whole: &WholeGraph) -> Result<Vec<bool>, AllocError>
    requires edges { AreEdges whole.now.rows }
    requires start { IfSome whole.now.start (λ s. s < length whole.now.rows) }
    ensures { IfOk result (λ marks. marks.items ≡ marks_of whole.now whole.now.start) }
{
    let rows = whole.rows.as_slice();
    let back = inverse(alloc, rows)?;
    match whole.start {
        None => marks_of_all(alloc, whole.nodes.as_slice(), rows, back.as_slice()),
        Some(start) => marks_about(alloc, rows, back.as_slice(), start),
    }
}
