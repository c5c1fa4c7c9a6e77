//! The lines of single failures, as texts or as objects of JSON.
//!
//! `print_lines` prints the lines of a report in one of the two forms. Definitions: `specs/Lines.antt`.

mod json;
mod printing;
mod text;
mod words;

pub use printing::print_lines;
