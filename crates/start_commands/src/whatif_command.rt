//! `whatif`: what single failures do to the start of a hive.
//!
//! `whatif` reads boot.ini and a hive, and prints of each entry that a start takes what is lost when it fails and when it is off; or
//! the first obstacle. It writes nothing and has no disk.

mod choice;
mod command;
mod inputs;

pub use command::whatif;
pub use inputs::WhatifInputs;
