//! Numbers of what is shown, and nodes and edges by them.

ghost use Rattle.std.specs.Prelude.{◌≡◌, ◌+◌, ◌<◌, ◌^◌, ◌++◌, length, OnOk, IfOk};
ghost use Rattle.std.specs.List.{flat_map, range_with_len};
ghost use Rattle.std.specs.Option.{option_copied, option_to_list};
ghost use Rattle.graph_rule.specs.Shown.{number_if, next_if, numbers_from, number_at, node_at, is_group, is_group_at, edge_to, edges_at, drawn_by};

use crate::marks::row_at;
use crate::whole::WholeGraph;
use answer_lines::graph_lines::{Graph, GraphEdge, GraphEdges, GraphNode, GraphNodes, NodeKind};
use std::alloc::{AllocError, Global};

// ---- numbers

fn number_if(shown: bool, next: u64) -> u64
    ensures { result ≡ number_if shown next }
{
    if shown { next } else { 0 }
}

fn next_if(shown: bool, next: u64) -> u64
    requires { next + 1 < 2 ^ 64 }
    ensures { result ≡ next_if shown next }
{
    if shown { next + 1 } else { next }
}

/// What is shown is numbered from 1, and the rest has 0.
pub(crate) fn numbers(alloc: Global, marks: &[bool]) -> Result<Vec<u64>, AllocError>
    ensures { IfOk result (λ numbers. numbers.items ≡ numbers_from 1 marks.now) }
{
    let mut numbers = Vec::new(alloc);
    let mut rest = marks;
    let _count = rest.len();
    let mut next = 1;
    'mark: loop {
        let [shown, more @ ..] = rest else {
            return Ok(numbers);
        };
        numbers.push(number_if(*shown, next))?;
        next = next_if(*shown, next);
        rest = more;
    }
}

fn number_at(numbers: &[u64], at: usize) -> u64
    ensures { result ≡ number_at numbers.now at }
{
    match numbers.get(at) {
        Some(number) => *number,
        None => 0,
    }
}

// ---- nodes

fn copy(alloc: Global, node: &GraphNode) -> Result<GraphNode, AllocError>
    ensures { IfOk result (λ copy. copy ≡ node.now) }
{
    Ok(GraphNode {
        kind: node.kind,
        phase: node.phase,
        state: node.state,
        number: node.number,
        name: node.name.copy(alloc)?,
    })
}

fn push_copy(
    alloc: Global,
    node: Option<&GraphNode>,
    out: &mut GraphNodes,
) -> Result<(), AllocError>
    ensures { OnOk result (out.new ≡ out.old ++ option_to_list (option_copied node.entry)) }
{
    match node {
        Some(node) => out.push(copy(alloc, node)?),
        None => Ok(()),
    }
}

/// Puts the node of a vertex after the others, where it is shown.
fn push_node(
    alloc: Global,
    nodes: &[GraphNode],
    numbers: &[u64],
    at: usize,
    out: &mut GraphNodes,
) -> Result<(), AllocError>
    ensures { OnOk result (out.new ≡ out.old ++ node_at nodes.now numbers.now at) }
{
    if number_at(numbers, at) == 0 {
        return Ok(());
    }
    push_copy(alloc, nodes.get(at), out)
}

/// The nodes that are shown.
fn nodes_shown(
    alloc: Global,
    nodes: &[GraphNode],
    numbers: &[u64],
) -> Result<GraphNodes, AllocError>
    ensures { IfOk result (λ out. out ≡ flat_map (node_at nodes.now numbers.now) (range_with_len 0 (length numbers.now))) }
{
    let mut out = GraphNodes::new(alloc);
    for at in 0..numbers.len() {
        push_node(alloc, nodes, numbers, at, &mut out)?;
    }
    Ok(out)
}

// ---- edges

fn is_group(kind: NodeKind) -> bool
    ensures { result ≡ is_group kind }
{
    match kind {
        NodeKind::Entry => false,
        NodeKind::Missing => false,
        NodeKind::Group => true,
    }
}

fn is_group_at(nodes: &[GraphNode], at: usize) -> bool
    ensures { result ≡ is_group_at nodes.now at }
{
    match nodes.get(at) {
        Some(node) => is_group(node.kind),
        None => false,
    }
}

/// Puts an edge after the others, where what it leads to is shown.
fn push_edge(
    numbers: &[u64],
    from: u64,
    of_group: bool,
    at: usize,
    out: &mut GraphEdges,
) -> Result<(), AllocError>
    ensures { OnOk result (out.new ≡ out.old ++ edge_to numbers.now from of_group at) }
{
    let to = number_at(numbers, at);
    if to == 0 {
        return Ok(());
    }
    out.push(GraphEdge { from, to, of_group })
}

/// Puts the edges to these vertices after the others.
fn push_row(
    numbers: &[u64],
    from: u64,
    of_group: bool,
    row: &[usize],
    out: &mut GraphEdges,
) -> Result<(), AllocError>
    ensures { OnOk result (out.new ≡ out.old ++ flat_map (edge_to numbers.now from of_group) row.now) }
{
    for at in row {
        push_edge(numbers, from, of_group, *at, out)?;
    }
    Ok(())
}

/// Puts the edges from a vertex after the others, where it is shown.
fn push_edges(
    whole: &WholeGraph,
    numbers: &[u64],
    at: usize,
    out: &mut GraphEdges,
) -> Result<(), AllocError>
    ensures { OnOk result (out.new ≡ out.old ++ edges_at whole.now numbers.now at) }
{
    let from = number_at(numbers, at);
    if from == 0 {
        return Ok(());
    }
    let of_group = is_group_at(whole.nodes.as_slice(), at);
    push_row(
        numbers,
        from,
        of_group,
        row_at(whole.rows.as_slice(), at),
        out,
    )
}

/// The edges between what is shown.
fn edges_shown(alloc: Global, whole: &WholeGraph, numbers: &[u64]) -> Result<GraphEdges, AllocError>
    ensures { IfOk result (λ out. out ≡ flat_map (edges_at whole.now numbers.now) (range_with_len 0 (length numbers.now))) }
{
    let mut out = GraphEdges::new(alloc);
    for at in 0..numbers.len() {
        push_edges(whole, numbers, at, &mut out)?;
    }
    Ok(out)
}

/// What is shown, by its numbers.
pub(crate) fn drawn_by(
    alloc: Global,
    whole: &WholeGraph,
    numbers: &[u64],
) -> Result<Graph, AllocError>
    ensures { IfOk result (λ graph. graph ≡ drawn_by whole.now numbers.now) }
{
    Ok(Graph {
        nodes: nodes_shown(alloc, whole.nodes.as_slice(), numbers)?,
        edges: edges_shown(alloc, whole, numbers)?,
    })
}
