//! What is wrong with the bytes of a hive or of its log.

ghost use Rattle.std.specs.Prelude.{◌≡◌};
ghost use Rattle.nt_bytes.specs.declared.fault.ReadStop.TheVariants.{Fault, Memory};

use std::alloc::{AllocError, AllocFailed};

/// What check failed. docs/format.md says when each comes.
#[derive(Clone, Copy, Debug, PartialEq, Eq)]
pub enum HiveFaultKind {
    /// The base block has no signature `regf`, or is absent.
    NotRegf,
    /// The base block's checksum is not that of its words.
    Checksum,
    /// The format's major version is not 1, or its minor version neither 3 nor 5.
    Version,
    /// The file type or format is not the wanted one.
    FileType,
    /// The size of the bins data is out of form, or bins sectors are missing.
    Size,
    /// A bin has no signature `hbin`.
    BinSign,
    /// A bin does not name its own offset.
    BinOffset,
    /// A bin's size is no positive multiple of 4096, or passes the end.
    BinSize,
    /// A cell's size is under 8 or no multiple of 8.
    CellSize,
    /// A cell passes the end of its bin.
    CellPastBin,
    /// No cell begins at the offset that is named.
    OutOfRange,
    /// The cell that is named is free.
    FreeCell,
    /// The cell was used before, and not both times as security.
    Shared,
    /// A payload is shorter than its fixed part or its stated lengths.
    FormShort,
    /// A payload has another signature.
    FormSign,
    /// A wide name has an odd length, or data in place are over 4 bytes.
    FormLength,
    /// A name is too long, has a backslash, or is empty where it may not be.
    FormName,
    /// A list of lists lists a list of lists.
    FormKind,
    /// Two siblings, or two values of a key, have names that fold alike.
    DoubleName,
    /// A key's lists have another number of entries than its node says.
    Count,
    /// A key lies deeper than 512 levels.
    TooDeep,
    /// The log's sector 0 is absent.
    LogAbsent,
    /// The log's base block is refused.
    LogBase,
    /// The log's sequence numbers are not those that the primary asks for.
    LogSequence,
    /// The log's bitmap has no signature `DIRT`.
    LogDirt,
    /// A sector of the log's bitmap, or a dirty sector, is absent.
    LogShort,
    /// A sector of the primary that is wanted cannot be read.
    Unreadable,
    /// A sector of the log that is wanted cannot be read.
    LogUnreadable,
}

/// The first check that fails, and where: a byte of the file or an offset in the bins data.
#[derive(Clone, Copy, Debug, PartialEq, Eq)]
pub struct HiveFault {
    pub kind: HiveFaultKind,
    pub at: u32,
}

/// Why a reader stopped.
#[derive(Clone, Copy, Debug, PartialEq, Eq)]
pub enum ReadStop {
    /// The bytes have this fault.
    Fault(HiveFault),
    /// There was no memory.
    Memory,
}

impl From<AllocError> for ReadStop {
    ghost from_gives = { λ _ e. e ≡ Memory };

    fn from(_e: AllocError) -> ReadStop {
        ReadStop::Memory
    }
}

impl<T: Drop> From<AllocFailed<T>> for ReadStop {
    ghost from_gives = { λ _ e. e ≡ Memory };

    fn from(_e: AllocFailed<T>) -> ReadStop {
        ReadStop::Memory
    }
}

impl From<HiveFault> for ReadStop {
    ghost from_gives = { λ f e. e ≡ Fault f };

    fn from(f: HiveFault) -> ReadStop {
        ReadStop::Fault(f)
    }
}
