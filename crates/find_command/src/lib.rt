//! The command `find`: where a text, or bytes, stand in a hive.
//!
//! `find` reads a hive, and prints a line for each hit in the part of its tree that the options name, as soon as it is found, and then how
//! many there were; or it prints the first obstacle. It writes nothing and has no disk.
#![tactic(auto)]

mod asking;
mod command;
mod laws;
mod printing;
mod saying;
mod walk;

pub use command::find;
pub use laws::digits_of_either_case_are_one;
