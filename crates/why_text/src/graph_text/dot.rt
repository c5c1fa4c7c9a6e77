//! The graph as text of the DOT language.

ghost use Rattle.std.specs.Prelude.{◌≡◌, ◌++◌, Some, OnOk};
ghost use Rattle.std.specs.List.{flat_map, list_any};
ghost use Rattle.answer_lines.specs.declared.graph_lines.graph.GraphNode.{GraphNode as Node};
ghost use Rattle.why_text.specs.graph_text.Dot.{in_quotes, number_text, label_text, node_front, node_text, is_phase, stands_in, node_where, nodes_text, cluster_front, cluster_text, phase_text, edge_text, opening_text, all_nodes_text, dot_text};

use crate::graph_text::quotes::{push_head, push_in_quotes, push_text};
use crate::graph_text::words::{dotted_text, phase_word, shape_text, style_text};
use answer_lines::graph_lines::{Graph, GraphEdge, GraphNode};
use answer_lines::why_lines::WhyLine;
use boot_phases::boot_phases::Phase;
use report_text::boot_report::push_name;
use report_text::line_text::push_number;
use std::alloc::{AllocError, Global};

// ---- nodes

/// Appends the number of an attempt, where there is one.
fn push_attempt(out: &mut Vec<u8>, number: u64) -> Result<(), AllocError>
    ensures { OnOk result (out.new.items ≡ out.old.items ++ number_text number) }
{
    if number == 0 {
        return Ok(());
    }
    push_number(out, number)?;
    out.extend_from_slice(b" ")
}

fn push_plain_label(out: &mut Vec<u8>, node: &GraphNode) -> Result<(), AllocError>
    ensures { OnOk result (out.new.items ≡ out.old.items ++ label_text node.now) }
{
    push_attempt(out, node.number)?;
    push_name(out, node.name.as_slice())
}

fn push_label(alloc: Global, out: &mut Vec<u8>, node: &GraphNode) -> Result<(), AllocError>
    ensures { OnOk result (out.new.items ≡ out.old.items ++ in_quotes (label_text node.now)) }
{
    let mut label = Vec::new(alloc);
    push_plain_label(&mut label, node)?;
    push_in_quotes(alloc, out, label.as_slice())
}

/// Appends the beginning of a node, up to its label.
fn push_front(out: &mut Vec<u8>, before: &[u8], number: u64) -> Result<(), AllocError>
    ensures { OnOk result (out.new.items ≡ out.old.items ++ node_front before.now number) }
{
    push_text(out, before)?;
    push_text(out, b"n")?;
    push_number(out, number)?;
    push_text(out, b" [label=\"")
}

/// Appends a node by its number.
fn push_node(
    alloc: Global,
    out: &mut Vec<u8>,
    before: &[u8],
    number: u64,
    node: &GraphNode,
) -> Result<(), AllocError>
    ensures { OnOk result (out.new.items ≡ out.old.items ++ node_text before.now number node.now) }
{
    push_front(out, before, number)?;
    push_label(alloc, out, node)?;
    push_text(out, b"\"")?;
    push_text(out, shape_text(node.kind))?;
    push_text(out, style_text(node.state))?;
    push_text(out, b"];\n")
}

// ---- phases

fn is_boot(phase: Phase) -> bool
    ensures { result ≡ is_phase Phase.Boot phase }
{
    match phase {
        Phase::Boot => true,
        Phase::System | Phase::Automatic | Phase::Done => false,
    }
}

fn is_system(phase: Phase) -> bool
    ensures { result ≡ is_phase Phase.System phase }
{
    match phase {
        Phase::System => true,
        Phase::Boot | Phase::Automatic | Phase::Done => false,
    }
}

fn is_automatic(phase: Phase) -> bool
    ensures { result ≡ is_phase Phase.Automatic phase }
{
    match phase {
        Phase::Automatic => true,
        Phase::Boot | Phase::System | Phase::Done => false,
    }
}

fn is_done(phase: Phase) -> bool
    ensures { result ≡ is_phase Phase.Done phase }
{
    match phase {
        Phase::Done => true,
        Phase::Boot | Phase::System | Phase::Automatic => false,
    }
}

fn is_phase(phase: Phase, other: Phase) -> bool
    ensures { result ≡ is_phase phase other }
{
    match phase {
        Phase::Boot => is_boot(other),
        Phase::System => is_system(other),
        Phase::Automatic => is_automatic(other),
        Phase::Done => is_done(other),
    }
}

fn stands_in(place: Option<Phase>, other: Option<Phase>) -> bool
    ensures { result ≡ stands_in place other }
{
    match place {
        None => other.is_none(),
        Some(phase) => match other {
            None => false,
            Some(other) => is_phase(phase, other),
        },
    }
}

/// Appends a node, where it is in this phase, or in none.
fn push_where(
    alloc: Global,
    out: &mut Vec<u8>,
    place: Option<Phase>,
    before: &[u8],
    number: u64,
    node: &GraphNode,
) -> Result<(), AllocError>
    ensures { OnOk result (out.new.items ≡ out.old.items ++ node_where place before.now number node.now) }
{
    if stands_in(place, node.phase) {
        return push_node(alloc, out, before, number, node);
    }
    Ok(())
}

/// Appends the nodes that are in this phase, or in none.
fn push_nodes(
    alloc: Global,
    out: &mut Vec<u8>,
    place: Option<Phase>,
    before: &[u8],
    nodes: &[GraphNode],
) -> Result<(), AllocError>
    ensures { OnOk result (out.new.items ≡ out.old.items ++ nodes_text place before.now 1 nodes.now) }
{
    let mut rest = nodes;
    let _count = rest.len();
    let mut number = 1;
    'node: loop {
        let [node, more @ ..] = rest else {
            return Ok(());
        };
        push_where(alloc, out, place, before, number, node)?;
        number += 1;
        rest = more;
    }
}

fn push_cluster_front(out: &mut Vec<u8>, phase: Phase) -> Result<(), AllocError>
    ensures { OnOk result (out.new.items ≡ out.old.items ++ cluster_front phase) }
{
    push_text(out, b"  subgraph cluster_")?;
    push_text(out, phase_word(phase))?;
    push_text(out, b" {\n    label=\"")?;
    push_text(out, phase_word(phase))?;
    push_text(out, b"\";\n")
}

#[tactic(auto, unfolding(crate::specs::graph_text::Dot::cluster_text))]
fn push_cluster(
    alloc: Global,
    out: &mut Vec<u8>,
    phase: Phase,
    nodes: &[GraphNode],
) -> Result<(), AllocError>
    ensures { OnOk result (out.new.items ≡ out.old.items ++ cluster_text phase nodes.now) }
{
    push_cluster_front(out, phase)?;
    push_nodes(alloc, out, Some(phase), b"    ", nodes)?;
    push_text(out, b"  }\n")
}

fn has_some(phase: Phase, nodes: &[GraphNode]) -> bool
    ensures { result ≡ list_any (λ (node : Node). stands_in (Some phase) node.phase) nodes.now }
{
    nodes.iter().any(|node| stands_in(Some(phase), node.phase))
}

/// Appends a phase, where a node is in it.
#[tactic(auto, unfolding(crate::specs::graph_text::Dot::phase_text))]
fn push_phase(
    alloc: Global,
    out: &mut Vec<u8>,
    phase: Phase,
    nodes: &[GraphNode],
) -> Result<(), AllocError>
    ensures { OnOk result (out.new.items ≡ out.old.items ++ phase_text phase nodes.now) }
{
    if has_some(phase, nodes) {
        return push_cluster(alloc, out, phase, nodes);
    }
    Ok(())
}

#[tactic(auto, unfolding(crate::specs::graph_text::Dot::all_nodes_text))]
fn push_all_nodes(alloc: Global, out: &mut Vec<u8>, nodes: &[GraphNode]) -> Result<(), AllocError>
    ensures { OnOk result (out.new.items ≡ out.old.items ++ all_nodes_text nodes.now) }
{
    push_phase(alloc, out, Phase::Boot, nodes)?;
    push_phase(alloc, out, Phase::System, nodes)?;
    push_phase(alloc, out, Phase::Automatic, nodes)?;
    push_nodes(alloc, out, None, b"  ", nodes)
}

// ---- edges, and the whole

#[tactic(auto, unfolding(crate::specs::graph_text::Dot::edge_text))]
fn push_edge(out: &mut Vec<u8>, edge: &GraphEdge) -> Result<(), AllocError>
    ensures { OnOk result (out.new.items ≡ out.old.items ++ edge_text edge.now) }
{
    push_text(out, b"  n")?;
    push_number(out, edge.from)?;
    push_text(out, b" -> n")?;
    push_number(out, edge.to)?;
    push_text(out, dotted_text(edge.of_group))?;
    push_text(out, b";\n")
}

fn push_edges(out: &mut Vec<u8>, edges: &[GraphEdge]) -> Result<(), AllocError>
    ensures { OnOk result (out.new.items ≡ out.old.items ++ flat_map edge_text edges.now) }
{
    for edge in edges {
        push_edge(out, edge)?;
    }
    Ok(())
}

fn push_opening(alloc: Global, out: &mut Vec<u8>, head: &[WhyLine]) -> Result<(), AllocError>
    ensures { OnOk result (out.new.items ≡ out.old.items ++ opening_text head.now) }
{
    let mut label = Vec::new(alloc);
    push_head(alloc, &mut label, head)?;
    push_text(out, b"digraph ntboot {\n  label=\"")?;
    push_in_quotes(alloc, out, label.as_slice())?;
    push_text(out, b"\";\n")
}

/// Appends the graph with the first lines about the start.
#[tactic(auto, unfolding(crate::specs::graph_text::Dot::dot_text))]
pub(crate) fn push_dot(
    alloc: Global,
    out: &mut Vec<u8>,
    head: &[WhyLine],
    graph: &Graph,
) -> Result<(), AllocError>
    ensures { OnOk result (out.new.items ≡ out.old.items ++ dot_text head.now graph.now) }
{
    push_opening(alloc, out, head)?;
    push_all_nodes(alloc, out, graph.nodes.as_slice())?;
    push_edges(out, graph.edges.as_slice())?;
    push_text(out, b"}\n")
}
