//! The command `sweep`: the power cut at each write and sync of one event.
#![tactic(auto)]

pub mod sweep_command;
pub mod sweep_inputs;
pub mod sweep_run;
