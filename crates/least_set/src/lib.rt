//! The least set that has some vertices and, with a vertex, all that it leads to.
#![tactic(auto)]

mod marks;
mod search;

pub use marks::{is_marked, mark, none_marked};
pub use search::{Edges, least_set};
