//! What the run keeps beside its session.

use crate::summary::Summary;
use boot_machine::boot_machine::Machine;
use hive_edit::HiveBytes;

/// The machine, how many starts there were, and what was reported so far, counted; and the cells that were judged last, which the next load
/// takes where the disk holds their bytes.
#[derive(Drop)]
pub struct Runner {
    pub(crate) machine: Machine,
    pub(crate) starts: u32,
    pub(crate) summary: Summary,
    pub(crate) judged: Option<HiveBytes>,
}
