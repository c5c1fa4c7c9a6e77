//! The lines that say why a command was refused: texts made of the command line, of a printed line and of numbers.
//!
//! `heard_in` is what a printed line says of a fault, `value_of` the file that an option names, `heard_line` and its neighbours are
//! the lines. Definitions: `specs/`.

mod dirty;
mod files;
mod heard;
mod kinds;
mod laws;
mod lines;
mod words;

pub use dirty::is_dirty;
pub use files::{file_at, is_option_of, missing_in, option_for, place_of, value_of};
pub use heard::{Heard, heard_in};
pub use kinds::Part;
pub use laws::printed_faults_are_heard;
pub use lines::{absent_line, heard_line, memory_line, unread_line, unwritten_line};
