//! The lines of entries that were unmet, and of what they lacked.
//!
//! `push_lacks` says of each entry its lacking names and groups with their states, and the members of each group once a phase.
//! Definition: `specs/Lacks.antt`.

mod entries;
mod groups;
mod names;

pub use entries::push_lacks;
