//! The answers of `why` and `graph` as text and as JSON.
#![tactic(auto)]

pub mod graph_text;
pub mod why_text;
