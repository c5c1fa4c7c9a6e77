//! The script of a run in which no disk can be ordered to stop.
//!
//! `read_quiet_script` reads a script as `boot_script` does, but a line that orders the disk to stop, a `fault` or a `cut` without
//! `now`, is a fault of its words. It takes any bytes.

mod orders;
mod script;

pub use script::read_quiet_script;
