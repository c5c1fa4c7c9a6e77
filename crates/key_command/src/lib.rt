//! The command `key`: one key of a hive, read from its cells.
#![tactic(auto)]

pub mod hive_levels;
pub mod judged_cells;
pub mod key_cells;
pub mod key_command;
