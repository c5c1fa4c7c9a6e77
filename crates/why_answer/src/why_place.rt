//! Where an entry is in the plan of its phase.
//!
//! `order_of` reads what decides the order of a set's entries; `push_place` says an entry's places by group, tag and registry, and its
//! neighbours in the plan; `entry_line` what the entry is. Rules: Windows Internals, 4th edition, startup; docs/startup.md.
//! Definitions: `specs/Place.antt`.

mod orders;
mod place;

pub use orders::{SetOrder, order_of};
pub use place::{entry_line, push_place};
