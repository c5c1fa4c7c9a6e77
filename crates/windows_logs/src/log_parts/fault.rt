//! The faults of a log.

/// What is wrong with a log.
#[derive(Clone, Copy, Debug, PartialEq, Eq)]
pub enum LogFaultKind {
    /// A check of its base block fails.
    LogBase,
    /// The two numbers of an old log differ.
    LogSequence,
    /// A sector that an old log needs is past its end.
    LogShort,
    /// An old log has no `DIRT`.
    LogDirt,
    /// A sector that an old log leaves to the hive is past the hive's end.
    Size,
    /// The length of an entry is 0 or no multiple of 512, or the entry goes past the log's end.
    EntrySize,
    /// One of the two hashes of an entry is another.
    EntryHash,
    /// The size or a page of an entry can't be.
    EntryPage,
    /// An entry makes the bins data longer without all of the new sectors.
    EntryGrow,
}

/// A fault, at a byte of the log; `Size` is at a byte of the hive.
#[derive(Clone, Copy, Debug, PartialEq, Eq)]
pub struct LogFault {
    pub kind: LogFaultKind,
    pub at: usize,
}
