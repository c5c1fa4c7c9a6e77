//! The commands `why`, `graph` and `whatif`, and the inputs of a start that they read.
#![tactic(auto)]

pub mod graph_command;
pub mod start_inputs;
pub mod whatif_command;
pub mod why_command;
