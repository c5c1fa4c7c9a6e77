//! Laws of single commands, and examples of whole calls.
#![tactic(auto)]

pub mod control_laws;
pub mod import_laws;
pub mod made_laws;
pub mod reason_laws;
pub mod run_examples;
pub mod safe_laws;
pub mod twin_laws;
