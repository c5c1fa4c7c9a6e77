//! Laws of `graph`: DOT, edges, nodes.
#![tactic(auto)]

pub mod dot_laws;
pub mod graph_laws;
pub mod node_laws;
