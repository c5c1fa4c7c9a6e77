//! What is reported of failures, line by line.

use boot_phases::error_control::Judgement;
use nt_bytes::{Row, Units};
use report_text::boot_report::Verdict;

/// What the plain start made of an entry.
#[derive(Clone, Copy, Debug, PartialEq, Eq)]
pub enum EntryState {
    /// It was attempted, and started.
    Started,
    /// A phase took it, and it was never ready.
    Unmet,
    /// No phase takes it.
    Untaken,
    /// There is no such entry.
    NoEntry,
}

/// How an entry needs another one.
#[derive(Clone, Copy, Debug, PartialEq, Eq)]
pub enum NeedWord {
    /// By a name of DependOnService.
    Service,
    /// By a group of DependOnGroup alone.
    Group,
}

/// A line. Names are spelled as in the registry.
#[derive(Drop)]
pub enum EffectLine {
    /// The plain start begins.
    Start,
    /// The control set that it takes, and whether it is on LastKnownGood.
    Set {
        number: u32,
        on_good: bool,
    },
    /// How it ended.
    Verdict(Verdict),
    /// What the plain start made of the name that is asked for.
    Of {
        state: EntryState,
        name: Units,
    },
    /// The first attempt of this entry fails: what follows, and how many entries are lost.
    Fail {
        judgement: Judgement,
        lost: usize,
        name: Units,
    },
    /// The Start of this entry is 4: how many entries are lost.
    Off {
        lost: usize,
        name: Units,
    },
    /// This entry is lost: it is never ready.
    Unmet(Units),
    /// This entry is lost: no phase takes it.
    Untaken(Units),
    /// This entry reaches the name that is asked for by this many needs.
    Leans {
        steps: usize,
        by: NeedWord,
        state: EntryState,
        name: Units,
    },
    /// The last line.
    End,
}

/// Lines in the order in which they are printed.
pub type EffectLines = Row<EffectLine>;
