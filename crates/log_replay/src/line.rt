//! The lines of a report on a replay.

use windows_logs::log_parts::LogFaultKind;

/// Which of the three logs.
#[derive(Clone, Copy, Debug, PartialEq, Eq)]
pub enum LogName {
    Log,
    Log1,
    Log2,
}

/// One line.
#[derive(Clone, Copy, Drop)]
pub enum ReplayLine {
    /// The numbers of the hive, and whether it is dirty.
    Sequence(u32, u32, bool),
    /// A log of no bytes.
    EmptyLog(LogName),
    /// A new log without whole entries.
    NoEntries(LogName),
    /// A new log: how many whole entries, the number of the first and of the last.
    Entries(LogName, usize, u32, u32),
    /// An old log that belongs to the hive and is whole: its number, and how many sectors it has.
    OldLog(LogName, u32, u32),
    /// An old log of another stamp, with its number.
    OtherStamp(LogName, u32),
    /// An old log of another number.
    OtherNumber(LogName, u32),
    /// A fault of a log, at a byte.
    Fault(LogFaultKind, LogName, usize),
    /// An entry or an old log of this number is applied: that many bytes of pages.
    Apply(LogName, u32, u64),
    /// How many were applied, and the result's numbers.
    Replayed(usize, u32, u32),
    /// The hive is saved with this number: that many bytes.
    Saved(u32, usize),
    /// The hive isn't saved, since it is dirty.
    SaveRefused,
    /// The last line.
    End,
}
