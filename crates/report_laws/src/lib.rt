//! Laws of JSON: the objects of a report tell its lines.
#![tactic(auto)]

pub mod command_json_laws;
pub mod key_laws;
pub mod report_json_laws;
