//! Everything suspicious about the services of a control set, one thing a line.
//!
//! `check` judges a hive's tree, or one set of it: what `Select` names, what the keys of services lack, what the entries
//! need and never get. Rules: Microsoft's documentation of service entries; Windows
//! Internals, 4th edition, startup; this project's own.
#![tactic(auto)]

mod checking;
mod child;
mod cycles;
mod groups;
mod malformed;
mod names;
mod needs;
mod stage;
mod table;
mod waits;

pub use checking::{Checked, check};
pub use stage::{Stage, Staged};
