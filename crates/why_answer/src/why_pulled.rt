//! Who pulls an entry of Start 3 into the automatic phase.
//!
//! `push_pulled` says who names the entry at a place of a plan, who names that one, up to one of Start 2. Rules: Windows Internals, 4th
//! edition, startup of services; docs/startup.md. Definitions: `specs/`.

mod layers;
mod namers;
mod pulled;

pub use namers::Namers;
pub use pulled::push_pulled;
