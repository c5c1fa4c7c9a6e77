//! What a change of the default set answers.

ghost use Rattle.std.specs.Prelude.{◌≡◌};
ghost use Rattle.hive_alt.specs.Turned.{load_stop_turned};
ghost use Rattle.hive_alt.specs.declared.change.ChangeStop.TheVariants.{Memory};

use hive_commit::LoadStop;
use nt_bytes::HiveFault;
use reg_tree::EditStop;
use thiserror::Error;

/// What a change of the default set did.
#[derive(Clone, Copy, Debug, PartialEq, Eq)]
pub struct Changed {
    /// The sequence number of what was loaded.
    pub loaded: u32,
    /// Whether the load repaired something.
    pub mended: bool,
    /// The new sequence number. None where nothing was to be done.
    pub committed: Option<u32>,
}

/// Why a change of the default set stopped. A stop after the load has the sequence number of what was loaded, and
/// whether the load repaired something.
#[derive(Clone, Copy, Debug, PartialEq, Eq, Error)]
pub enum ChangeStop {
    /// The hive has this fault. Nothing was written.
    #[error("Fault")]
    Fault(HiveFault),
    /// The tree has no key `Select`.
    #[error("NoSelect")]
    NoSelect { loaded: u32, mended: bool },
    /// The changed tree would have a bulk over 16,773,120 bytes.
    #[error("Full")]
    Full { loaded: u32, mended: bool },
    /// The power was cut in a call of the disk, which is off now.
    #[error("PowerLost")]
    PowerLost { loaded: Option<(u32, bool)> },
    /// A read, a write or a sync failed. The disk is on.
    #[error("Device")]
    Device { loaded: Option<(u32, bool)> },
    /// There was no memory. The disk is on.
    #[error("Memory")]
    Memory,
}

impl From<LoadStop> for ChangeStop {
    ghost from_gives = { λ stop made. made ≡ load_stop_turned stop };

    fn from(stop: LoadStop) -> Self {
        match stop {
            LoadStop::Fault(fault) => ChangeStop::Fault(fault),
            LoadStop::PowerLost => ChangeStop::PowerLost { loaded: None },
            LoadStop::Device => ChangeStop::Device { loaded: None },
            LoadStop::Memory => ChangeStop::Memory,
        }
    }
}

impl From<EditStop> for ChangeStop {
    ghost from_gives = { λ _ made. made ≡ Memory };

    fn from(_: EditStop) -> Self {
        ChangeStop::Memory
    }
}
