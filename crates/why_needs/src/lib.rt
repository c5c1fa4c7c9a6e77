//! What became of a service, and what it needs.
#![tactic(auto)]

pub mod why_needs;
pub mod why_state;
