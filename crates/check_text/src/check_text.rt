//! The lines of a check, as texts or as objects of JSON.
//!
//! `lines_text` prints lines in one of the two forms. Definitions: `specs/Lines.antt`. This project's own.

mod json;
mod printing;
mod text;
mod words;

pub use printing::lines_text;
