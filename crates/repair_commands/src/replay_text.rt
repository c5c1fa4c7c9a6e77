//! The lines of a replay, as texts or as objects of JSON.
//!
//! `push_lines` prints the lines of a report in one of the two forms. Definitions: `specs/Lines.antt`.

mod json;
mod printing;
mod reporting;
mod text;
mod words;

pub use printing::push_lines;
pub use reporting::{Report, replay_report};
