//! What a check of a control set's services finds, line by line.
//!
//! The types alone: `service_check` says which lines a check says, and `check_text` how they are printed.

mod lines;

pub use lines::{CheckLine, CheckLines, Fault, Faults, Field, SelectWord};
