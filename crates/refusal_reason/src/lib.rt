//! Why a call was refused, as a line on standard error.
#![tactic(auto)]

pub mod reason_lines;
pub mod refusal_reason;
