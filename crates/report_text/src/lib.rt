//! The lines of a report, as text and as objects of JSON.
#![tactic(auto)]

pub mod boot_report;
pub mod line_objects;
pub mod line_text;
