//! What a service that did not start lacked, down to the roots.
#![tactic(auto)]

pub mod why_cycle;
pub mod why_items;
pub mod why_lacks;
