//! The needs and the order of a start, as a graph.
//!
//! The types alone: `graph_rule` says which nodes and edges there are, and `why_text::graph_text` how they are printed.

mod graph;

pub use graph::{Graph, GraphEdge, GraphEdges, GraphNode, GraphNodes, NodeKind, NodeState};
