//! The needs and the order of a start: its graph as text of the DOT language, or as objects of JSON.
//!
//! `print_graph` prints nodes and edges in one of the two forms, after the first lines about the start. Definitions: `specs/`.

mod dot;
mod json;
mod printing;
mod quotes;
mod words;

pub use printing::print_graph;
