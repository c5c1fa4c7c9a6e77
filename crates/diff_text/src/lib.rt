//! The lines of a comparison of two control sets, as texts or as objects of JSON.
//!
//! `lines_text` prints lines in one of the two forms. Definitions: `specs/Lines.antt`, `specs/Objects.antt`. This project's own.
#![tactic(auto)]

mod json;
mod printing;
mod text;
mod words;

pub use printing::lines_text;
