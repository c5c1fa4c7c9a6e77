//! Why a text is no script of a sweep.

ghost use Rattle.std.specs.Prelude.{◌≡◌};
ghost use Rattle.boot_script.specs.declared.sweep_script.stop.SweepStop.TheVariants as stops;

use crate::boot_script::ScriptFault;
use std::alloc::AllocError;

/// What is wrong with a script.
#[derive(Clone, Copy, Debug, PartialEq, Eq)]
pub enum SweepFault {
    /// A line is faulty, or the text is too long.
    Script(ScriptFault),
    /// No line is `sweep`, or no event stands after it.
    NoSweep,
}

/// Why a script was not read.
#[derive(Clone, Copy, Debug, PartialEq, Eq)]
pub enum SweepStop {
    /// The text has this fault.
    Fault(SweepFault),
    /// There was no memory.
    Memory,
}

impl From<AllocError> for SweepStop {
    ghost from_gives = { λ _ e. e ≡ stops.Memory };

    fn from(_e: AllocError) -> SweepStop {
        SweepStop::Memory
    }
}
