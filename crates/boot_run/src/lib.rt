//! The run of a script on a disk: each start begins from what the disk then loads as.
//!
//! `run` plays the events in order over any host and any bench, and says each line at once, in one of two forms, after the step that it
//! reports. What was printed is the report of the book's run on what the disk woke up with; at a refusal it is a prefix of it. Rules:
//! docs/startup.md, "The order of a start" and "The script"; docs/texts.md, "The report".
#![tactic(auto)]

mod beginning;
mod booting;
mod closing;
mod committing;
mod cutting;
mod editing;
mod ending;
mod live;
mod loading;
mod missing;
mod runner;
mod saving;
mod saying;
mod sets;
mod starter;
mod stop;
mod summary;
mod turning;
mod unmet;
mod whole;
mod words;

pub use runner::Runner;
pub use stop::RunStop;
pub use summary::Summary;
pub use whole::run;
