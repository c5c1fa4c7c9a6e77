//! The needs and the order of a start, as a graph.
//!
//! `graph` says of a script's last start which nodes and edges its graph has: of all that it takes, or of one name with what it needs and
//! what needs it. Rules: Windows Internals, 4th edition, startup; docs/startup.md. Definitions: `specs/`.
#![tactic(auto)]

mod entries;
mod graph;
mod marks;
mod names;
mod nodes;
mod numbers;
mod parts;
mod rows;
mod whole;

pub use graph::graph_in;
