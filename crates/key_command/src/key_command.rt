//! `key`: one key of a hive, readable.
//!
//! `key` reads a hive and prints the key that a path means, and those of the levels below it that are asked for; or the first
//! obstacle. It writes nothing and has no disk. The hive is judged whole, and no tree of it is made but of the keys that are printed.

mod command;
mod text;

pub use command::key;
