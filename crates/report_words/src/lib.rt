//! What the lines of a report say. Types alone: the book of startup cites them, and so do the crates above.
#![tactic(auto)]

mod line;
mod words;

pub use line::Line;
pub use words::{CommitWord, EventWord, PhaseWord, RefusedWord, TryWord, Verdict};
