//! Where an entry is in a start, line by line. Numbers and places count from 1, and names are spelled as in the registry or the script.

use boot_phases::boot_phases::Phase;
use boot_phases::error_control::Judgement;
use nt_bytes::{Row, Units};
use report_text::boot_report::Verdict;

/// What an entry is by its Type.
#[derive(Clone, Copy, Debug, PartialEq, Eq)]
pub enum EntryKind {
    Driver,
    Service,
    Other,
}

/// What decides which of two entries comes first.
#[derive(Clone, Copy, Debug, PartialEq, Eq)]
pub enum OrderWord {
    /// The places of their groups.
    Group,
    /// The places of their tags.
    Tag,
    /// Their places in the registry.
    Registry,
}

/// The place of an entry's group in the list of groups.
#[derive(Clone, Copy, Debug, PartialEq, Eq)]
pub enum GroupPlace {
    Listed(u64),
    Unlisted,
}

/// The place of an entry's tag among those of its group.
#[derive(Clone, Copy, Debug, PartialEq, Eq)]
pub enum TagPlace {
    Listed(u64),
    Unlisted,
    /// Tags don't count, in this phase or for this group.
    Idle,
}

/// Why no phase takes a name: the first of these that holds.
#[derive(Clone, Copy, Debug, PartialEq, Eq)]
pub enum Reason {
    /// No child of `Services` has the name.
    NoKey,
    /// It has no DWORD Start.
    NoStart,
    /// It has no DWORD Type.
    NoType,
    /// It is neither a driver nor a service.
    Kind,
    /// Start 4.
    Disabled,
    /// A Start above 4.
    Beyond,
    /// A service of Start 0 or 1.
    TooEarly,
    /// Start 3, and no entry that is taken names it.
    Demand,
}

/// What became of the name in the start.
#[derive(Clone, Copy, Debug, PartialEq, Eq)]
pub enum NameState {
    /// The start came to no phase, or there was none.
    NoPhase,
    /// By this attempt of the start.
    Started(u64),
    /// By this attempt of the start, with what error control made of it.
    Failed(u64, Judgement),
    /// It was never ready in its phase.
    Unmet,
    /// Its turn in this phase did not come.
    NotReached(Phase),
    /// An edit made an entry of it that the phase would have taken, after that began.
    Late,
    NotTaken(Reason),
}

/// How a need is at the end of a phase.
#[derive(Clone, Copy, Debug, PartialEq, Eq)]
pub enum NeedState {
    Started,
    Failed,
    Unmet,
    /// A later phase would take it.
    Later,
    /// This phase or one before it would have taken it as the set was read.
    Late,
    NotTaken(Reason),
}

/// A line.
#[derive(Drop)]
pub enum WhyLine {
    /// No boot was accepted.
    NoBoot,
    Start {
        number: u32,
    },
    Set {
        number: u32,
        on_good: bool,
    },
    Verdict(Verdict),
    /// The attempt of this entry ended the start.
    EndedBy(Units),
    /// The boot phase ended without this vital name.
    Vital(Units),
    /// The name that is asked for.
    Name(Units),
    /// Its entry: what it is, Start, Type and ErrorControl.
    Entry {
        kind: EntryKind,
        start: u32,
        number: u32,
        control: u32,
    },
    /// Its place in the plan of its phase, of that many.
    Place {
        phase: Phase,
        place: u64,
        of: u64,
    },
    Group {
        place: GroupPlace,
        name: Units,
    },
    NoGroup,
    Tag {
        tag: u32,
        place: TagPlace,
    },
    NoTag,
    Registry {
        place: u64,
    },
    /// It comes after this one in the plan.
    After {
        by: OrderWord,
        name: Units,
    },
    /// It comes before this one in the plan.
    Before {
        by: OrderWord,
        name: Units,
    },
    /// An entry of Start 3 is taken since this one names it.
    Pulled(Units),
    /// It was ready when its phase began.
    ReadyAtOnce,
    /// It was ready from the moment on at which this one was started.
    ReadyAfter(Units),
    State(NameState),
    /// An entry that was unmet; what it lacked follows.
    Unmet {
        phase: Phase,
        name: Units,
    },
    LackService {
        state: NeedState,
        name: Units,
    },
    /// A group that has members in the set, or none.
    LackGroup {
        has_members: bool,
        name: Units,
    },
    Member {
        state: NeedState,
        name: Units,
    },
    /// Each needs the next one, and the last the first.
    Cycle(Units),
    End,
}

/// Lines, the first one first.
pub type WhyLines = Row<WhyLine>;
