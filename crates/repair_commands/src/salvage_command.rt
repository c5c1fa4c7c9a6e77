//! `salvage`: what can still be read of a damaged hive.
//!
//! `salvage` reads a hive and its log, prints what is wrong with them and how much was salvaged, and saves a sound hive of that
//! where the command line asks for it; or it prints the first obstacle. There is no disk.

mod command;

pub use command::salvage;
