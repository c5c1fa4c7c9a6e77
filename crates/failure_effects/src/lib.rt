//! What a single failure does to a start: each entry in turn failed, and then off, and who leans on a name.
//!
//! `effects` plays the plain start of a loaded tree, in which each attempt goes well, and two other starts for each entry that it
//! takes: one in which the entry's first attempt fails, and one in which its Start is 4. Nothing is written and no disk is there.
//! Rules: Windows Internals, 4th edition, startup; docs/startup.md. Definitions: `specs/`.
#![tactic(auto)]

mod blocks;
mod course;
mod givers;
mod leaning;
mod lines;
mod lost;
mod opening;
mod reading;
mod report;
mod states;
mod switching;
mod told;

pub use lines::{EffectLine, EffectLines, EntryState, NeedWord};
pub use opening::{Opening, StartChoice, Taken};
pub use report::effects;
