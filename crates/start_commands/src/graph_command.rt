//! `graph`: the needs and the order of a start, as text for Graphviz.
//!
//! `graph` reads a script, boot.ini and a hive, plays the script without a disk, and prints the graph of its last start, or the part of a
//! name in it; or the first obstacle. It writes nothing.

mod command;

pub use command::graph;
