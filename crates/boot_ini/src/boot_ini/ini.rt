//! What a text of boot.ini says, and why a text is refused.

ghost use Rattle.std.specs.Prelude.{◌≡◌};
ghost use Rattle.boot_ini.specs.declared.boot_ini.ini.IniStop.TheVariants.{Memory};

use nt_bytes::{Bytes, Row};
use std::alloc::{AllocError, AllocFailed};

/// The switches of an entry, each with its `/`, in order.
pub type Switches = Row<Bytes>;

/// Entries in the order of the text.
pub type OsEntries = Row<OsEntry>;

/// A line of `[operating systems]`.
#[derive(Debug, Drop)]
pub struct OsEntry {
    /// What stands before the first `=`, blanks included.
    pub path: Bytes,
    pub title: Bytes,
    pub switches: Switches,
}

/// What a text says.
#[derive(Debug, Drop)]
pub struct BootIni {
    /// Seconds in which somebody may choose; -1 is for ever.
    pub timeout: i32,
    /// The number, from 1, of the entry that is taken where nobody chooses.
    pub chosen: u32,
    /// One entry or more.
    pub entries: OsEntries,
}

/// Why a text was not read.
#[derive(Clone, Copy, Debug, PartialEq, Eq)]
pub enum IniStop {
    /// The text is over 65,536 bytes. This is judged first.
    TooLong,
    /// There are over 64 entries.
    TooManyEntries,
    /// There was no memory.
    Memory,
}

impl From<AllocError> for IniStop {
    ghost from_gives = { λ _ e. e ≡ Memory };

    fn from(_e: AllocError) -> IniStop {
        IniStop::Memory
    }
}

impl<T: Drop> From<AllocFailed<T>> for IniStop {
    ghost from_gives = { λ _ e. e ≡ Memory };

    fn from(_e: AllocFailed<T>) -> IniStop {
        IniStop::Memory
    }
}
