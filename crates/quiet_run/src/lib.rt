//! What a script leaves of its last start, played without a disk.
//!
//! `quiet_run` plays the events of a script on a loaded tree: each load gives the settled state, and each operation is done. It answers
//! what the last start was and did: its number and set, the phases that it began with the sets as they read them, its attempts, and
//! how it ended. Rules: Windows Internals, 4th edition, startup; docs/startup.md. Definitions: `specs/Watch.antt`.
#![tactic(auto)]

mod beginning;
mod booting;
mod committing;
mod editing;
mod ending;
mod last;
mod play;
mod saving;
mod sets;
mod starter;
mod stepping;
mod turning;
mod whole;
mod words;

pub use last::{Attempt, AttemptRow, BegunPhase, BegunPhases, LastStart, QuietRun};
pub use whole::quiet_run;
