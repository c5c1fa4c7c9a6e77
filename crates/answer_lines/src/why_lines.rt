//! Where an entry is in a start, and why it was started or not, line by line.
//!
//! The types alone: `why_text` says how they are printed.

mod lines;

pub use lines::{
    EntryKind, GroupPlace, NameState, NeedState, OrderWord, Reason, TagPlace, WhyLine, WhyLines,
};
