//! `sweep`: the power cut at every write and sync of one event.
//!
//! `sweep` reads a script, boot.ini and a hive, plays the events before the line `sweep` and then the one after it on disks of its own, and prints
//! the writes and syncs of that event, each with the state that a cut there leaves; or the first obstacle. It writes nothing.

mod command;
mod events;
mod text;

pub use command::sweep;
