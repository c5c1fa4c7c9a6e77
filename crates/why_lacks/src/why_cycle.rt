//! The cycle of unmet entries that keeps an unmet entry from its attempt.
//!
//! `push_cycle` says which entries need one another, where nothing that could be repaired alone is lacking.
//! Definition: `specs/Cycle.antt`.

mod freed;
mod lines;
mod needs;
mod shared;
mod waits;
mod walk;

pub use lines::push_cycle;
