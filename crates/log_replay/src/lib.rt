//! The rule of `replay`: which log is applied to a dirty hive, and what it makes of it.
#![tactic(auto)]

mod entries;
mod laws;
mod line;
mod old;
mod reading;
mod replaying;

pub use laws::{a_clean_hive_stays, an_entry_has_the_number_that_was_asked_for};
pub use line::{LogName, ReplayLine};
pub use reading::{GivenLog, LogReading};
pub use replaying::{LogFile, Outcome, replay};
