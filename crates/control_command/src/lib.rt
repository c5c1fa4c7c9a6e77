//! The command `control`: services started and stopped after the boot.
//!
//! `read_commands` reads the text of the commands, `control` obeys them on the services of a hive's Default set, and
//! says what comes of each. The services and what a start or a stop does are those of `service_control`.
#![tactic(auto)]

mod answering;
mod command;
mod commands;
mod controlling;
mod inputs;
mod printing;
mod reading;

pub use answering::report;
pub use command::{Commands, ControlCommand};
pub use controlling::control;
pub use inputs::ControlInputs;
pub use reading::read_commands;
