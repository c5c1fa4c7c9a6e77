//! What differs between two control sets, line by line.
//!
//! The types alone: `set_diff` and `tree_diff` say which lines there are, and `diff_text` how they are printed.

mod lines;

pub use lines::{DiffField, DiffLine, DiffLines, KeyField, Part, Sequence, Shown, Side};
