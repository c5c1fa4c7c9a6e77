//! The command `services`: the drivers and services of a control set, one a line.
//!
//! `services` reads a hive and prints the lines of `service_list` on one of its sets, each as soon as it is made; or the first obstacle. It writes
//! nothing and has no disk.
#![tactic(auto)]

mod command;
mod entry_parts;
mod line;
mod saying;

pub use command::services;
