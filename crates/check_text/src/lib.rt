//! The answers of `check` and `whatif` as text and as JSON.
#![tactic(auto)]

pub mod check_text;
pub mod whatif_text;
