//! How a repair ends.

ghost use Rattle.std.specs.Prelude.{◌≡◌};
ghost use Rattle.mend_command.specs.mend_command.Exits.{exit_of};

/// The exit status. Where the power went at any of these, the hive still loads as the tree that it had.
#[derive(Clone, Copy, Debug, PartialEq, Eq)]
pub enum MendStatus {
    /// All was done.
    Done,
    /// The hive has a fault. Said: `hive fault KIND at OFFSET`. Nothing was written.
    HiveFault,
    /// Something could not be said: the host's count of write faults rose. Nothing more is printed.
    WriteFault,
    /// There was no memory. Nothing more is printed.
    Memory,
    /// A read, a write or a sync failed: the disk's count of faults rose. Said: `device fault`.
    Device,
    /// The power was cut: the disk's count of cuts rose, and it is off. Said: `power lost`.
    Cut,
}

impl MendStatus {
    /// The program's exit number.
    pub fn code(self) -> u8
        ensures { result ≡ exit_of self }
    {
        match self {
            MendStatus::Done => 0,
            MendStatus::HiveFault => 5,
            MendStatus::WriteFault => 7,
            MendStatus::Memory => 9,
            MendStatus::Device => 11,
            MendStatus::Cut => 12,
        }
    }
}
