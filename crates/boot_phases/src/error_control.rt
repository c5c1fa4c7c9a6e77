//! What a failed attempt means for the start, by the entry's ErrorControl.
//!
//! `judge` is a table: it asks nothing, and takes no memory. Rules: Microsoft's documentation of service
//! entries; Windows Internals, 4th edition, startup.

mod outcome;

pub use outcome::{Judgement, judge};
