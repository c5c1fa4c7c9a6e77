//! The lines on a damaged hive, as texts or as objects of JSON.
//!
//! `salvage_report` prints what `salvage_file` found. Definitions: `specs/Lines.antt` and `specs/Report.antt`.
#![tactic(auto)]

mod counting;
mod json;
mod printing;
mod reporting;
mod text;
mod walk_json;
mod walk_text;
mod words;

pub use reporting::{Report, salvage_report};
