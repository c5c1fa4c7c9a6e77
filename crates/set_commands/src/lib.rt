//! The commands `check` and `diff`, and the control sets that they read.
#![tactic(auto)]

pub mod check_command;
pub mod diff_command;
pub mod hive_sets;
