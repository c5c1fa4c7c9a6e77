//! Why a text is no registry text, and why a tree has none.

ghost use Rattle.std.specs.Prelude.{◌≡◌};
ghost use Rattle.reg_text.specs.declared.stop.RegStop.TheVariants as reg_stops;
ghost use Rattle.reg_text.specs.declared.stop.RegLineStop.TheVariants as line_stops;

use std::alloc::{AllocError, AllocFailed};

/// What is wrong with a text, or with a tree that is to be one.
#[derive(Clone, Copy, Debug, PartialEq, Eq)]
pub enum RegFaultKind {
    /// The text doesn't begin with the bytes `ff fe`.
    Mark,
    /// The first line isn't the header.
    Header,
    /// The line of a key doesn't begin with `HKEY_LOCAL_MACHINE\SYSTEM`.
    Root,
    /// The line is none of those that are read, it has an odd last byte, or it is a value without a key.
    Line,
    /// A name of the tree has a unit 10 or 13, so that it can't be in one line.
    NotText,
}

/// The first faulty line, counted from 1; 0 for the mark and for a tree. A line past 4,294,967,295 is
/// given as that number.
#[derive(Clone, Copy, Debug, PartialEq, Eq)]
pub struct RegFault {
    pub kind: RegFaultKind,
    pub line: u32,
}

/// Why a text was not read or not made.
#[derive(Clone, Copy, Debug, PartialEq, Eq)]
pub enum RegStop {
    /// The text or the tree has this fault.
    Fault(RegFault),
    /// There was no memory.
    Memory,
}

/// Why one line says nothing.
#[derive(Clone, Copy, Debug, PartialEq, Eq)]
pub enum RegLineStop {
    Kind(RegFaultKind),
    Memory,
}

impl From<AllocError> for RegStop {
    ghost from_gives = { λ _ e. e ≡ reg_stops.Memory };

    fn from(_e: AllocError) -> RegStop {
        RegStop::Memory
    }
}

impl<T: Drop> From<AllocFailed<T>> for RegStop {
    ghost from_gives = { λ _ e. e ≡ reg_stops.Memory };

    fn from(_e: AllocFailed<T>) -> RegStop {
        RegStop::Memory
    }
}

impl From<AllocError> for RegLineStop {
    ghost from_gives = { λ _ e. e ≡ line_stops.Memory };

    fn from(_e: AllocError) -> RegLineStop {
        RegLineStop::Memory
    }
}

impl<T: Drop> From<AllocFailed<T>> for RegLineStop {
    ghost from_gives = { λ _ e. e ≡ line_stops.Memory };

    fn from(_e: AllocFailed<T>) -> RegLineStop {
        RegLineStop::Memory
    }
}

impl From<RegFaultKind> for RegLineStop {
    ghost from_gives = { λ k e. e ≡ line_stops.Kind k };

    fn from(kind: RegFaultKind) -> RegLineStop {
        RegLineStop::Kind(kind)
    }
}
