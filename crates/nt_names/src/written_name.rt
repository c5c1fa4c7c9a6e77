//! The name that a word of the command line writes.
//!
//! `written_name` answers the UTF-16 units of a word, in which `\u` and four hexadecimal digits stand for the unit of that number, as
//! reports write the units that they do not print.

mod escapes;
mod units;
mod word;

pub use word::{written_name, written_name_if};
