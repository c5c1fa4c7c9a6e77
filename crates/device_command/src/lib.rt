//! The command `devices`: which drivers Plug and Play loads for each device of a control set, and what prevents it.
//!
//! `devices` reads a hive and prints the lines that `device_rule` makes of one of its control sets, or the first obstacle. Its status
//! says whether there are findings. It writes nothing and has no disk. This project's own.
#![tactic(auto)]

mod command;
mod driver_line;
mod keys;
mod laws;
mod line;
mod printing;
mod words;

pub use command::devices;
pub use laws::objects_tell_the_report;
pub use printing::lines_text;
