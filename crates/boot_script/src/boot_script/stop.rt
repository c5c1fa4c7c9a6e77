//! Why a text is no script.

ghost use Rattle.std.specs.Prelude.{◌≡◌};
ghost use Rattle.boot_script.specs.declared.boot_script.stop.ScriptStop.TheVariants as script_stops;
ghost use Rattle.boot_script.specs.declared.boot_script.stop.LineStop.TheVariants as line_stops;

use std::alloc::{AllocError, AllocFailed};

/// What is wrong with a script. In one line a fault of words comes before one of numbers.
#[derive(Clone, Copy, Debug, PartialEq, Eq)]
pub enum ScriptFaultKind {
    /// The text is over 65,536 bytes.
    TooLong,
    /// A byte outside 0x20 to 0x7E, an unclosed `"`, or a `"` inside a word.
    Line,
    /// An unknown command or keyword, a word missing or too many.
    Word,
    /// A number out of its range, or hexadecimal digits that are no pairs.
    Number,
    /// The 65th `boot` line.
    TooManyStarts,
}

/// The first faulty line, counted from 1; 0 where the text is too long.
#[derive(Clone, Copy, Debug, PartialEq, Eq)]
pub struct ScriptFault {
    pub kind: ScriptFaultKind,
    pub line: u32,
}

/// Why a script was not read.
#[derive(Clone, Copy, Debug, PartialEq, Eq)]
pub enum ScriptStop {
    /// The text has this fault.
    Fault(ScriptFault),
    /// There was no memory.
    Memory,
}

/// Why one line has no words, or no event.
#[derive(Clone, Copy, Debug, PartialEq, Eq)]
pub enum LineStop {
    Kind(ScriptFaultKind),
    Memory,
}

impl From<AllocError> for LineStop {
    ghost from_gives = { λ _ e. e ≡ line_stops.Memory };

    fn from(_e: AllocError) -> LineStop {
        LineStop::Memory
    }
}

impl<T: Drop> From<AllocFailed<T>> for LineStop {
    ghost from_gives = { λ _ e. e ≡ line_stops.Memory };

    fn from(_e: AllocFailed<T>) -> LineStop {
        LineStop::Memory
    }
}

impl From<ScriptFaultKind> for LineStop {
    ghost from_gives = { λ k e. e ≡ line_stops.Kind k };

    fn from(kind: ScriptFaultKind) -> LineStop {
        LineStop::Kind(kind)
    }
}

impl From<AllocError> for ScriptStop {
    ghost from_gives = { λ _ e. e ≡ script_stops.Memory };

    fn from(_e: AllocError) -> ScriptStop {
        ScriptStop::Memory
    }
}
