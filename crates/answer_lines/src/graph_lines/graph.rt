//! Nodes and edges. Nodes are numbered from 1, in their order; names are spelled as in the registry or as given.

use boot_phases::boot_phases::Phase;
use nt_bytes::{Row, Units};

/// What a node stands for.
#[derive(Clone, Copy, Debug, PartialEq, Eq)]
pub enum NodeKind {
    /// An entry.
    Entry,
    /// A name without an entry.
    Missing,
    /// A group that an entry needs.
    Group,
}

/// What became of an entry in the start, or of a group by its entries.
#[derive(Clone, Copy, Debug, PartialEq, Eq)]
pub enum NodeState {
    Started,
    Failed,
    /// The entry was never ready in its phase, or no entry of the group was started.
    Unmet,
    /// The entry's turn did not come in its phase.
    NotReached,
    /// No phase takes the entry.
    Untaken,
    /// There is no entry.
    NoEntry,
}

/// A node.
#[derive(Drop)]
pub struct GraphNode {
    pub kind: NodeKind,
    /// The phase that an entry is in.
    pub phase: Option<Phase>,
    pub state: NodeState,
    /// The number of the attempt in the start; 0 where there was none.
    pub number: u64,
    pub name: Units,
}

/// Nodes in the order of their numbers.
pub type GraphNodes = Row<GraphNode>;

/// An edge: the one node needs the other, or the other is an entry of the one's group.
#[derive(Clone, Copy, Debug, PartialEq, Eq)]
pub struct GraphEdge {
    /// The number of the node that it leads from.
    pub from: u64,
    /// The number of the node that it leads to.
    pub to: u64,
    /// It leads from a group.
    pub of_group: bool,
}

/// Edges, in the order of the nodes that they lead from.
pub type GraphEdges = Row<GraphEdge>;

/// The nodes and edges that are shown.
#[derive(Drop)]
pub struct Graph {
    pub nodes: GraphNodes,
    pub edges: GraphEdges,
}
