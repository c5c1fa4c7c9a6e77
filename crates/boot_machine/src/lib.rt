//! The machine step by step, and the edits that its acts make.
#![tactic(auto)]

pub mod boot_machine;
pub mod edit_steps;
