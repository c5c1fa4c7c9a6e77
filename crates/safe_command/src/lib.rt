//! `safe`: what a start in safe mode would attempt.
//!
//! `safe` reads boot.ini and a hive, and says the entry, the mode, the control set and the lines of its three phases, where each
//! attempt goes well; or the first obstacle. It writes nothing and has no disk.
#![tactic(auto)]

mod command;
mod inputs;
mod report;

pub use command::safe;
pub use inputs::SafeInputs;
