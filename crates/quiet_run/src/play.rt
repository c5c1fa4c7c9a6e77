//! A run in its course.

use crate::last::LastStart;
use boot_machine::boot_machine::Machine;
use nt_bytes::HiveVersion;
use reg_tree::Key;

/// A run in its course, seen as a state of the book's run by `state_in`.
#[derive(Drop)]
pub struct Play {
    pub machine: Machine,
    /// The live tree with the edits of the running start.
    pub live: Key,
    /// What the disk loads as.
    pub settled: Key,
    pub sequence: u32,
    pub dirty: bool,
    pub version: HiveVersion,
    /// Whether the live tree was changed since the last load or commit.
    pub changed: bool,
    pub starts: u32,
    pub last: LastStart,
}
