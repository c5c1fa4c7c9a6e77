//! What a command reads that plays a script without a disk.
//!
//! `start_inputs` reads the system's path, the script, boot.ini, and a hive with its log, in this order, up to the first obstacle. Where
//! no script is named, the events are `boot` and `go`. Rules: `specs/Inputs.antt`.

mod inputs;
mod script;

pub use inputs::{StartFiles, StartInputs, start_inputs};
