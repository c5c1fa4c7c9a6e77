//! Starting and stopping services after the boot.
//!
//! A `Control` holds the drivers and services of a control set, and which of them are started. `new` has those that a
//! start gives of which each attempt goes well; `start` starts a service with all that it needs, `stop` stops one on
//! which no other leans, `stop_all` one with all that lean on it. A refusal leaves everything as it was. Rules: Windows
//! Internals, 4th edition, startup of services; Microsoft's documentation of service entries; this project's own.
#![tactic(auto)]

mod causes;
mod control;
mod first;
mod judge;
mod laws;
mod leaning;
mod lists;
mod needed;
mod rank;
mod stop;
mod turns;

pub use control::Control;
pub use laws::{
    a_start_is_least, a_stop_goes_backwards, leaning_is_the_least_set, needed_is_the_least_set,
    needs_are_always_met,
};
pub use stop::ControlStop;
