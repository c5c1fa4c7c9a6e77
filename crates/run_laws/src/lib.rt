//! Laws of runs: what wakes, commits and rests leave.
#![tactic(auto)]

pub mod commit_laws;
pub mod last_laws;
pub mod rest_laws;
pub mod run_laws;
