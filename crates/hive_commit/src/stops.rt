//! Why a commit or a load stopped.

ghost use Rattle.std.specs.Prelude.{◌≡◌};
ghost use Rattle.hive_commit.specs.Stops.{commit_stop_of};

use nt_edge::DiskStop;
use thiserror::Error;

/// Why a commit stopped. The next load finds the hive from before it or the one after it.
#[derive(Clone, Copy, Debug, PartialEq, Eq, Error)]
pub enum CommitStop {
    /// The power was cut in a call of the disk, which is off now.
    #[error("PowerLost")]
    PowerLost,
    /// A write or a sync failed. The disk is on.
    #[error("Device")]
    Device,
    /// The disk had no memory. It is on.
    #[error("Memory")]
    Memory,
}

impl From<DiskStop> for CommitStop {
    ghost from_gives = { λ stop made. made ≡ commit_stop_of stop };

    fn from(stop: DiskStop) -> Self {
        match stop {
            DiskStop::PowerLost => CommitStop::PowerLost,
            DiskStop::Failed => CommitStop::Device,
            DiskStop::Memory => CommitStop::Memory,
        }
    }
}
