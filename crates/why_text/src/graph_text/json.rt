//! The graph as objects of JSON.

ghost use Rattle.std.specs.Prelude.{◌≡◌, [], ◌++◌, codes, OnOk};
ghost use Rattle.std.specs.List.{flat_map};
ghost use Rattle.report_text.specs.line_text.Objects.{fields_text, object_text};
ghost use Rattle.why_text.specs.why_text.Lines.{printed_lines};
ghost use Rattle.why_text.specs.graph_text.Objects.{node_fields, edge_fields, node_json, nodes_json, edge_json, json_text};

use crate::graph_text::words::{kind_word, place_word, state_word};
use crate::why_text::lines_text;
use answer_lines::graph_lines::{Graph, GraphEdge, GraphNode};
use answer_lines::why_lines::WhyLine;
use report_text::line_text::{
    ReportForm, close_object, open_object, push_number_field, push_text_field, push_word_field,
};
use std::alloc::{AllocError, Global};

fn push_node_fields(out: &mut Vec<u8>, number: u64, node: &GraphNode) -> Result<(), AllocError>
    ensures { OnOk result (out.new.items ≡ out.old.items ++ fields_text (node_fields number node.now)) }
{
    push_number_field(out, b"node", number)?;
    push_word_field(out, b"kind", kind_word(node.kind))?;
    push_word_field(out, b"phase", place_word(node.phase))?;
    push_word_field(out, b"state", state_word(node.state))?;
    push_number_field(out, b"number", node.number)?;
    push_text_field(out, b"name", node.name.as_slice())
}

fn push_node(out: &mut Vec<u8>, number: u64, node: &GraphNode) -> Result<(), AllocError>
    ensures { OnOk result (out.new.items ≡ out.old.items ++ node_json number node.now) }
{
    open_object(out, b"node")?;
    push_node_fields(out, number, node)?;
    close_object(out)
}

fn push_nodes(out: &mut Vec<u8>, nodes: &[GraphNode]) -> Result<(), AllocError>
    ensures { OnOk result (out.new.items ≡ out.old.items ++ nodes_json 1 nodes.now) }
{
    let mut rest = nodes;
    let _count = rest.len();
    let mut number = 1;
    'node: loop {
        let [node, more @ ..] = rest else {
            return Ok(());
        };
        push_node(out, number, node)?;
        number += 1;
        rest = more;
    }
}

fn push_edge_fields(out: &mut Vec<u8>, edge: &GraphEdge) -> Result<(), AllocError>
    ensures { OnOk result (out.new.items ≡ out.old.items ++ fields_text (edge_fields edge.now)) }
{
    push_number_field(out, b"from", edge.from)?;
    push_number_field(out, b"to", edge.to)
}

#[tactic(auto, unfolding(crate::specs::graph_text::Objects::edge_json))]
fn push_edge(out: &mut Vec<u8>, edge: &GraphEdge) -> Result<(), AllocError>
    ensures { OnOk result (out.new.items ≡ out.old.items ++ edge_json edge.now) }
{
    open_object(out, b"edge")?;
    push_edge_fields(out, edge)?;
    close_object(out)
}

fn push_edges(out: &mut Vec<u8>, edges: &[GraphEdge]) -> Result<(), AllocError>
    ensures { OnOk result (out.new.items ≡ out.old.items ++ flat_map edge_json edges.now) }
{
    for edge in edges {
        push_edge(out, edge)?;
    }
    Ok(())
}

fn push_end(out: &mut Vec<u8>) -> Result<(), AllocError>
    ensures { OnOk result (out.new.items ≡ out.old.items ++ object_text (codes "end") []) }
{
    open_object(out, b"end")?;
    close_object(out)
}

fn push_head(alloc: Global, out: &mut Vec<u8>, head: &[WhyLine]) -> Result<(), AllocError>
    ensures { OnOk result (out.new.items ≡ out.old.items ++ printed_lines ReportForm.Json head.now) }
{
    let text = lines_text(alloc, ReportForm::Json, head)?;
    out.extend_from_slice(text.as_slice())
}

/// Appends the first lines about the start, and then the graph.
#[tactic(auto, unfolding(crate::specs::graph_text::Objects::json_text))]
pub(crate) fn push_json(
    alloc: Global,
    out: &mut Vec<u8>,
    head: &[WhyLine],
    graph: &Graph,
) -> Result<(), AllocError>
    ensures { OnOk result (out.new.items ≡ out.old.items ++ json_text head.now graph.now) }
{
    push_head(alloc, out, head)?;
    push_nodes(out, graph.nodes.as_slice())?;
    push_edges(out, graph.edges.as_slice())?;
    push_end(out)
}
