//! A session on a hive: loaded from a disk, looked into, edited, committed.
//!
//! `Hive::load` checks the whole hive before it writes, `apply` edits the cells, which keep what the disk carries of
//! each page before its first change, and `commit` takes no memory. Regardless of power loss, a start finds a state from before or after.
//! Rules: docs/format.md, "Commit and recovery".
#![tactic(auto)]

mod checking;
mod committing;
mod editing;
mod hive;
mod loading;
mod same;

pub use checking::{check_cells, check_images, judge_images, tree_in};
pub use hive::Hive;
pub use hive_commit::{CommitStop, LoadStop};
