//! A hive loaded from its disk and packed where that makes it shorter.
//!
//! `LoadedHive::load` checks the whole hive before it writes, and recovers a dirty one by its log. `mend`
//! packs the tree and commits what it packed, where that is shorter than what the disk carries; else it
//! makes no call of the disk. Regardless of power loss, a start finds the same tree.
//! Rules: docs/format.md, "Commit and recovery".

mod hive;
mod loading;
mod mending;

pub use hive::LoadedHive;
pub use hive_commit::{CommitStop, LoadStop};
