//! An ARC path, and why a text is none.

ghost use Rattle.std.specs.Prelude.{◌≡◌};
ghost use Rattle.boot_ini.specs.declared.arc_path.arc.ArcStop.TheVariants.{Memory};

use nt_bytes::Bytes;
use std::alloc::{AllocError, AllocFailed};

/// The first word of a path: how the disk is reached.
#[derive(Clone, Copy, Debug, PartialEq, Eq)]
pub enum ArcKind {
    /// By the firmware's disk calls.
    Multi,
    /// By a SCSI controller's own driver.
    Scsi,
    /// By the signature that is written on the disk.
    Signature,
}

/// A path to a directory on a partition. A signature is in `controller`; `dir` is without the
/// `\` before it, and empty where the text names no directory.
#[derive(Debug, Drop)]
pub struct Arc {
    pub kind: ArcKind,
    pub controller: u32,
    pub disk: u32,
    pub rdisk: u32,
    pub partition: u32,
    pub dir: Bytes,
}

/// What is wrong with a text.
#[derive(Clone, Copy, Debug, PartialEq, Eq)]
pub enum ArcFaultKind {
    /// No known first word with `(` begins the text.
    Kind,
    /// A `)` or the next word with `(` is missing. The place is where it should begin.
    Word,
    /// There are no digits, or too many. The place is where they should begin.
    Number,
    /// The partition is zero. The place is where its digits begin.
    Partition,
    /// Something other than `\` and bytes from 0x20 to 0x7E follows. The place is its first byte.
    Tail,
}

/// The first fault from the left, and the byte at which it stands; 4,294,967,295 where that
/// is further on.
#[derive(Clone, Copy, Debug, PartialEq, Eq)]
pub struct ArcFault {
    pub kind: ArcFaultKind,
    pub at: u32,
}

/// Why a text was not read.
#[derive(Clone, Copy, Debug, PartialEq, Eq)]
pub enum ArcStop {
    /// The text is no path.
    Fault(ArcFault),
    /// There was no memory.
    Memory,
}

impl From<AllocError> for ArcStop {
    ghost from_gives = { λ _ e. e ≡ Memory };

    fn from(_e: AllocError) -> ArcStop {
        ArcStop::Memory
    }
}

impl<T: Drop> From<AllocFailed<T>> for ArcStop {
    ghost from_gives = { λ _ e. e ≡ Memory };

    fn from(_e: AllocFailed<T>) -> ArcStop {
        ArcStop::Memory
    }
}
