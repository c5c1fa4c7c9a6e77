//! The lines that `check`, `why`, `diff` and `graph` answer with.
#![tactic(auto)]

pub mod check_lines;
pub mod diff_lines;
pub mod graph_lines;
pub mod why_lines;
