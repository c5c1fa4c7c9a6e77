//! What the graph says of an entry, of a name without one, and of a group.

ghost use Rattle.std.specs.Prelude.{◌≡◌, map, slice_get, IfOk};
ghost use Rattle.std.specs.Option.{option_map};
ghost use Rattle.why_needs.specs.declared.why_state.views.PhaseView.{PhaseView as View};
ghost use Rattle.graph_rule.specs.Nodes.{node_state, node_number, coming_phase, node_phase, named_node, entry_node, missing_node, group_node};

use answer_lines::graph_lines::{GraphNode, GraphNodes, NodeKind, NodeState};
use answer_lines::why_lines::NameState;
use boot_phases::boot_phases::Phase;
use boot_phases::service_entries::Entry;
use nt_bytes::Units;
use std::alloc::{AllocError, Global};
use why_needs::why_state::{ViewedRun, placed_of, state_of};

fn node_state(state: NameState) -> NodeState
    ensures { result ≡ node_state state }
{
    match state {
        NameState::NoPhase => NodeState::Untaken,
        NameState::Started(_) => NodeState::Started,
        NameState::Failed(_, _) => NodeState::Failed,
        NameState::Unmet => NodeState::Unmet,
        NameState::NotReached(_) => NodeState::NotReached,
        NameState::Late => NodeState::Untaken,
        NameState::NotTaken(_) => NodeState::Untaken,
    }
}

fn node_number(state: NameState) -> u64
    ensures { result ≡ node_number state }
{
    match state {
        NameState::Started(number) => number,
        NameState::Failed(number, _) => number,
        NameState::NoPhase => 0,
        NameState::Unmet => 0,
        NameState::NotReached(_) => 0,
        NameState::Late => 0,
        NameState::NotTaken(_) => 0,
    }
}

fn coming_phase(state: NameState) -> Option<Phase>
    ensures { result ≡ coming_phase state }
{
    match state {
        NameState::NotReached(phase) => Some(phase),
        NameState::NoPhase => None,
        NameState::Started(_) => None,
        NameState::Failed(_, _) => None,
        NameState::Unmet => None,
        NameState::Late => None,
        NameState::NotTaken(_) => None,
    }
}

fn phase_at(run: &ViewedRun, at: usize) -> Option<Phase>
    ensures { result ≡ option_map (λ (v : View). v.phase) (slice_get run.now.views at) }
{
    match run.views.get(at) {
        Some(view) => Some(view.phase),
        None => None,
    }
}

fn node_phase(run: &ViewedRun, name: &[u16], state: NameState) -> Option<Phase>
    ensures { result ≡ node_phase run.now name.now state }
{
    match placed_of(run, name) {
        Some((at, _)) => phase_at(run, at),
        None => coming_phase(state),
    }
}

fn named_node(
    alloc: Global,
    run: &ViewedRun,
    name: &Units,
    state: NameState,
) -> Result<GraphNode, AllocError>
    ensures { IfOk result (λ node. node ≡ named_node run.now name.now state) }
{
    Ok(GraphNode {
        kind: NodeKind::Entry,
        phase: node_phase(run, name.as_slice(), state),
        state: node_state(state),
        number: node_number(state),
        name: name.copy(alloc)?,
    })
}

fn entry_node(alloc: Global, run: &ViewedRun, entry: &Entry) -> Result<GraphNode, AllocError>
    ensures { IfOk result (λ node. node ≡ entry_node run.now entry.now) }
{
    named_node(
        alloc,
        run,
        &entry.name,
        state_of(run, entry.name.as_slice()),
    )
}

/// The nodes of entries.
pub(crate) fn entry_nodes(
    alloc: Global,
    run: &ViewedRun,
    entries: &[Entry],
) -> Result<GraphNodes, AllocError>
    ensures { IfOk result (λ nodes. nodes ≡ map (entry_node run.now) entries.now) }
{
    let mut nodes = GraphNodes::new(alloc);
    for entry in entries {
        nodes.push(entry_node(alloc, run, entry)?)?;
    }
    Ok(nodes)
}

/// A name without an entry.
pub(crate) fn missing_node(alloc: Global, name: &Units) -> Result<GraphNode, AllocError>
    ensures { IfOk result (λ node. node ≡ missing_node name.now) }
{
    Ok(GraphNode {
        kind: NodeKind::Missing,
        phase: None,
        state: NodeState::NoEntry,
        number: 0,
        name: name.copy(alloc)?,
    })
}

/// A group by its state.
pub(crate) fn group_node(
    alloc: Global,
    state: NodeState,
    name: &Units,
) -> Result<GraphNode, AllocError>
    ensures { IfOk result (λ node. node ≡ group_node state name.now) }
{
    Ok(GraphNode {
        kind: NodeKind::Group,
        phase: None,
        state,
        number: 0,
        name: name.copy(alloc)?,
    })
}
