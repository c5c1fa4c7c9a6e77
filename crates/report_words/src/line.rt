//! What a line says.

use crate::words::{CommitWord, EventWord, PhaseWord, RefusedWord, TryWord, Verdict};
use nt_bytes::{Bytes, Units};

/// A line of the report.
#[derive(Debug, Drop)]
pub enum Line {
    /// A boot was accepted; starts are counted from 1.
    Start {
        number: u32,
    },
    /// The entry of boot.ini, counted from 1, and its path as it stands there.
    Entry {
        number: u32,
        path: Bytes,
    },
    /// The hive was loaded, by its log where it had to be recovered.
    Load {
        sequence: u32,
        recovered: bool,
    },
    /// The control set that the start takes.
    Set {
        number: u32,
        last_known_good: bool,
    },
    /// A change is on the disk.
    Commit {
        what: CommitWord,
        sequence: u32,
    },
    /// The numbers of `Select`.
    Select {
        current: u32,
        default: u32,
        failed: u32,
        good: u32,
    },
    /// A phase begins.
    Phase {
        word: PhaseWord,
    },
    /// A driver or service was tried.
    Try {
        name: Units,
        outcome: TryWord,
    },
    /// At the end of a phase this one was never ready.
    Unmet {
        name: Units,
    },
    /// The boot phase ended without this vital name, as the script has it.
    Vital {
        name: Units,
    },
    /// A user logged on.
    Logon,
    /// The save was refused: by the hive's limit, or else for want of a free number.
    SaveRefused {
        full: bool,
    },
    /// An edit was done.
    EditOk,
    /// A flush found nothing changed.
    FlushNothing,
    /// An event was refused.
    Refused {
        event: EventWord,
        why: RefusedWord,
    },
    /// A start ended.
    Verdict {
        word: Verdict,
    },
    /// The script was read to its end.
    End,
}
