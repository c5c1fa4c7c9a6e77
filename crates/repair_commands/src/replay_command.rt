//! `replay`: the transaction logs of Windows, applied to a dirty hive.
//!
//! `replay` reads a hive and its logs and prints what these make of it, or the first obstacle. The result is then saved, where
//! the command line asks for that and it is clean. There is no disk.

mod command;
mod inputs;

pub use command::replay;
pub use inputs::ReplayInputs;
