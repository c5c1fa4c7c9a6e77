//! What the command `sweep` reads.
//!
//! `sweep_inputs` reads the system's path, the script, boot.ini, and a hive with its log, in this order, up to the first obstacle. A
//! script has to be named. Rules: `specs/Inputs.antt`.

mod inputs;
mod script;

pub use inputs::{SweepFiles, SweepInputs, sweep_inputs};
