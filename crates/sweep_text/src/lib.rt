//! The report of `sweep` as text and as JSON.
#![tactic(auto)]

pub mod sweep_lines;
pub mod sweep_text;
