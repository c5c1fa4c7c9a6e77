//! Worked examples of the program's call: what it prints of small runs, byte by byte.
//!
//! Each makes a host in memory with three files, a new disk in memory, and calls the program with the words of a command line. What was
//! printed is known from the contract of that call alone.

mod calling;
mod starts;

pub use calling::Ran;
pub use starts::{a_cut_that_was_ordered, a_plain_start, a_start_behind_a_cut};
