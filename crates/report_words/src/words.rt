//! The words that lines of the report say.

/// What a commit wrote.
#[derive(Clone, Copy, Debug, PartialEq, Eq)]
pub enum CommitWord {
    /// The change with which a start begins.
    Begin,
    /// The save of a good start.
    Save,
    /// The edits so far, at `flush`.
    Flush,
    /// The edits so far, at `off`.
    Off,
}

/// The phase that begins.
#[derive(Clone, Copy, Debug, PartialEq, Eq)]
pub enum PhaseWord {
    Boot,
    System,
    Automatic,
    Done,
}

/// How an attempt went; of one that failed, what error control made of it.
#[derive(Clone, Copy, Debug, PartialEq, Eq)]
pub enum TryWord {
    Ok,
    Ignored,
    Logged,
    FallBack,
    Stop,
}

/// The first word of a script's line.
#[derive(Clone, Copy, Debug, PartialEq, Eq)]
pub enum EventWord {
    Boot,
    Go,
    Fail,
    Vital,
    Set,
    Delete,
    Make,
    Remove,
    Flush,
    Logon,
    Off,
    Cut,
    Fault,
}

/// Why an event was refused. The first six go by the state of the machine, the others by the edit.
#[derive(Clone, Copy, Debug, PartialEq, Eq)]
pub enum RefusedWord {
    /// No start runs.
    Off,
    /// A start runs already.
    Running,
    /// A logon before the automatic phase.
    Early,
    /// A second logon in a start.
    Again,
    /// Every phase is done.
    Idle,
    /// The edit would change `Select` or a numbered control set, or make or remove the set itself.
    Protected,
    /// No key has this path.
    NoKey,
    /// The key has no value of this name.
    NoValue,
    /// A name is empty, or one of a key that is made has a backslash.
    BadName,
    /// A key name is over 255 units, or a value name over 16,383.
    NameTooLong,
    /// A key would lie deeper than 512 levels.
    TooDeep,
    /// Data of over 1,048,576 bytes.
    DataTooLong,
    /// The hive would be over its limit.
    Full,
}

/// How a start ended.
#[derive(Clone, Copy, Debug, PartialEq, Eq)]
pub enum Verdict {
    /// Every phase was done, a user logged on, and the set was saved as LastKnownGood.
    Good,
    /// The same, but the save was refused.
    GoodUnsaved,
    /// The start was not good yet when it ended.
    Running,
    /// A service of severe or critical error control failed: the next start takes LastKnownGood.
    FallBack,
    /// A service of critical error control failed, and there was nothing to fall back on; or the boot phase
    /// ended without a vital name.
    Stopped,
    /// The power was cut.
    Cut,
    /// The disk failed.
    Device,
    /// The change of the begin is over the hive's limit.
    Full,
    /// The begin needs a free number for a control set, and there is none.
    NoNumber,
    /// boot.ini has no entry of the wanted number.
    NoEntry,
    /// The chosen entry is for another loader.
    OtherLoader,
    /// The chosen entry is for another system.
    NoSystem,
    /// The set that Default names is not usable.
    NoControlSet,
    /// The set that LastKnownGood names is not usable.
    NoLastKnownGood,
}
