//! All nodes and edges, shown or not.

ghost use Rattle.std.specs.Prelude.{◌≡◌, ◌<◌, ◌++◌, length, map, IfOk, IfSome, OnOk};
ghost use Rattle.std.specs.List.{list_any};
ghost use Rattle.std.specs.Option.{option_and_then, option_copied};
ghost use Rattle.hive_model.specs.Valid.{HoldsKeys};
ghost use Rattle.wait_cycles.specs.Graph.{AreEdges};
ghost use Rattle.graph_rule.specs.Nodes.{missing_node, group_node as Grouped};
ghost use Rattle.graph_rule.specs.Rows.{name_vertex, is_started, is_started_at, group_state, nodes_of, whole_by, whole_of};

use crate::entries::entries_in;
use crate::nodes::{group_node, missing_node};
use crate::parts::{GraphParts, members_in, parts};
use crate::rows::{VertexRows, name_vertex, rows_of};
use answer_lines::graph_lines::{GraphNode, GraphNodes, NodeState};
use nt_bytes::Units;
use nt_names::name_places::NamePlaces;
use std::alloc::{AllocError, Global};
use why_needs::why_state::ViewedRun;

/// All nodes and edges.
#[derive(Drop)]
pub(crate) struct WholeGraph {
    /// The nodes of the vertices.
    pub(crate) nodes: GraphNodes,
    /// What each vertex leads to.
    pub(crate) rows: VertexRows,
    /// The vertex of the name that is asked for.
    pub(crate) start: Option<usize>,
}

// ---- nodes

fn is_started(state: NodeState) -> bool
    ensures { result ≡ is_started state }
{
    match state {
        NodeState::Started => true,
        NodeState::Failed => false,
        NodeState::Unmet => false,
        NodeState::NotReached => false,
        NodeState::Untaken => false,
        NodeState::NoEntry => false,
    }
}

fn is_started_at(nodes: &[GraphNode], at: usize) -> bool
    ensures { result ≡ is_started_at nodes.now at }
{
    match nodes.get(at) {
        Some(node) => is_started(node.state),
        None => false,
    }
}

fn is_any_started(nodes: &[GraphNode], places: &[usize]) -> bool
    ensures { result ≡ list_any (is_started_at nodes.now) places.now }
{
    places.iter().any(|at| is_started_at(nodes, *at))
}

fn group_state(alloc: Global, parts: &GraphParts, group: &Units) -> Result<NodeState, AllocError>
    ensures { IfOk result (λ state. state ≡ group_state parts.now group.now) }
{
    let members = members_in(alloc, &parts.members, group.as_slice())?;
    if is_any_started(parts.nodes.as_slice(), members.as_slice()) {
        Ok(NodeState::Started)
    } else {
        Ok(NodeState::Unmet)
    }
}

fn push_missing(alloc: Global, names: &[Units], nodes: &mut GraphNodes) -> Result<(), AllocError>
    ensures { OnOk result (nodes.new ≡ nodes.old ++ map missing_node names.now) }
{
    for name in names {
        nodes.push(missing_node(alloc, name)?)?;
    }
    Ok(())
}

fn stated_group(alloc: Global, parts: &GraphParts, group: &Units) -> Result<GraphNode, AllocError>
    ensures { IfOk result (λ node. node ≡ Grouped (group_state parts.now group.now) group.now) }
{
    let state = group_state(alloc, parts, group)?;
    group_node(alloc, state, group)
}

/// The nodes of the groups.
fn group_nodes(alloc: Global, parts: &GraphParts) -> Result<GraphNodes, AllocError>
    ensures { IfOk result (λ nodes. nodes ≡ map (λ group. Grouped (group_state parts.now group) group) parts.now.groups) }
{
    let mut nodes = GraphNodes::new(alloc);
    for group in parts.groups.as_slice() {
        nodes.push(stated_group(alloc, parts, group)?)?;
    }
    Ok(nodes)
}

/// Puts the nodes after the others.
fn push_all(more: GraphNodes, nodes: &mut GraphNodes) -> Result<(), AllocError>
    ensures { OnOk result (nodes.new ≡ nodes.old ++ more) }
{
    for node in more.into_vec() {
        nodes.push(node)?;
    }
    Ok(())
}

/// The nodes of the entries, and the names without an entry.
fn split(parts: GraphParts) -> (GraphNodes, NamePlaces)
    ensures nodes { result.0 ≡ parts.nodes }
    ensures missing { result.1 ≡ parts.missing }
{
    (parts.nodes, parts.missing)
}

fn nodes_of(alloc: Global, parts: GraphParts) -> Result<GraphNodes, AllocError>
    ensures { IfOk result (λ nodes. nodes ≡ nodes_of parts) }
{
    let groups = group_nodes(alloc, &parts)?;
    let (mut nodes, missing) = split(parts);
    push_missing(alloc, missing.as_slice(), &mut nodes)?;
    push_all(groups, &mut nodes)?;
    Ok(nodes)
}

// ---- the whole

/// The vertex of the name that is asked for.
fn start_in(parts: &GraphParts, of: Option<&Units>) -> Result<Option<usize>, AllocError>
    ensures { IfOk result (λ start. start ≡ option_and_then (name_vertex parts.now) (option_copied of.entry)) }
{
    match of {
        Some(name) => name_vertex(parts, name.as_slice()),
        None => Ok(None),
    }
}

fn whole_by(alloc: Global, parts: GraphParts, of: Option<&Units>) -> Result<WholeGraph, AllocError>
    ensures { IfOk result (λ whole. whole ≡ whole_by parts (option_copied of.entry)) }
{
    let rows = rows_of(alloc, &parts, of)?;
    let start = start_in(&parts, of)?;
    let nodes = nodes_of(alloc, parts)?;
    Ok(WholeGraph { nodes, rows, start })
}

/// All nodes and edges of a start, with the vertex of the name that is asked for.
#[tactic(auto, unfolding(crate::specs::Rows::whole_of))]
pub(crate) fn whole_of(
    alloc: Global,
    run: &ViewedRun,
    of: Option<&Units>,
) -> Result<WholeGraph, AllocError>
    requires { HoldsKeys run.now.run.set }
    ensures exact { IfOk result (λ whole. whole ≡ whole_of run.now (option_copied of.entry)) }
    ensures edges { IfOk result (λ whole. AreEdges whole.rows) }
    ensures start { IfOk result (λ whole. IfSome whole.start (λ s. s < length whole.rows)) }
{
    let entries = entries_in(alloc, run)?;
    let parts = parts(alloc, run, of, entries)?;
    whole_by(alloc, parts, of)
}
