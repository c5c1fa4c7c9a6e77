//! Where an entry is in a start, and why it was started or not: the lines as texts or as objects of JSON.
//!
//! `lines_text` prints the lines in one of the two forms. Definitions: `specs/Lines.antt`.

mod json;
mod printing;
mod text;
mod words;

pub use printing::lines_text;
