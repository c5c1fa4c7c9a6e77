//! The commands `replay` and `salvage`.
#![tactic(auto)]

pub mod replay_command;
pub mod replay_text;
pub mod salvage_command;
