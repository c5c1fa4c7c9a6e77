//! The whole answer of `why`: the place in a start, by which rule, and what was lacking.
#![tactic(auto)]

pub mod why_answer;
pub mod why_place;
pub mod why_pulled;
