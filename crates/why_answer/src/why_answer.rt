//! All that is reported of a name in the last start of a script.
//!
//! `why_lines` says where a name's entry is in the start, what became of it, and what it lacked, down to the root. Rules: Windows
//! Internals, 4th edition, startup; docs/startup.md. Definition: `specs/Answer.antt`.

mod answer;
mod placed;
mod unplaced;

pub use answer::why_lines;
