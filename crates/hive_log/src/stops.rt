//! Why a load stopped.

ghost use Rattle.std.specs.Prelude.{◌≡◌};
ghost use Rattle.hive_log.specs.Stops.{load_stop_of};
ghost use Rattle.hive_log.specs.declared.stops.LoadStop.TheVariants.{Memory};
ghost use Rattle.hive_log.specs.declared.stops.LoadStop.TheVariants as load;

use nt_bytes::HiveFault;
use nt_edge::DiskStop;
use std::alloc::AllocError;
use thiserror::Error;

/// Why a load stopped. What the disk is recovered as, or the first fault that it has, is as before.
#[derive(Clone, Copy, Debug, PartialEq, Eq, Error)]
pub enum LoadStop {
    /// The hive has this fault.
    #[error("Fault")]
    Fault(HiveFault),
    /// The power was cut in a call of the disk, which is off now.
    #[error("PowerLost")]
    PowerLost,
    /// A read, a write or a sync failed. The disk is on.
    #[error("Device")]
    Device,
    /// There was no memory. The disk is on.
    #[error("Memory")]
    Memory,
}

impl From<DiskStop> for LoadStop {
    ghost from_gives = { λ stop made. made ≡ load_stop_of stop };

    fn from(stop: DiskStop) -> Self {
        match stop {
            DiskStop::PowerLost => LoadStop::PowerLost,
            DiskStop::Failed => LoadStop::Device,
            DiskStop::Memory => LoadStop::Memory,
        }
    }
}

impl From<AllocError> for LoadStop {
    ghost from_gives = { λ _ made. made ≡ Memory };

    fn from(_: AllocError) -> Self {
        LoadStop::Memory
    }
}

impl From<HiveFault> for LoadStop {
    ghost from_gives = { λ fault made. made ≡ load.Fault fault };

    fn from(fault: HiveFault) -> Self {
        LoadStop::Fault(fault)
    }
}
