//! What a run on a disk adds to its report and its notes, and what of that is printed.
#![tactic(auto)]

pub mod printed_parts;
pub mod run_parts;
