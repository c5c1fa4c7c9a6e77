//! What the commands share: how a call ends, what it leaves of files and output, which input is missing.
#![tactic(auto)]

pub mod command_parts;
pub mod input_search;
