//! `why`: the place of an entry in a start, and why it was started or not.
//!
//! `why` reads a script, boot.ini and a hive, and prints of a name the place of its entry in the last start of the script, what became of it, and
//! what it lacked; or the first obstacle. It writes nothing and has no disk.

mod command;

pub use command::why;
