//! `check`: every suspicious thing about the services of a control set.
//!
//! `check` reads a hive and prints what is suspicious about its sets and services, one thing a line; or the first obstacle. Its
//! status says whether something was found. It writes nothing and has no disk.

mod command;

pub use command::check;
