//! How a call of the program ends.

ghost use Rattle.std.specs.Prelude.{◌≡◌};
ghost use Rattle.command_parts.specs.command_parts.Exits.{exit_of};

/// The exit status. What is printed with it is one line, but for `Done`.
#[derive(Clone, Copy, Debug, PartialEq, Eq)]
pub enum Status {
    /// All was done; the report was printed.
    Done,
    /// The words cannot be parsed. Said: `bad usage`.
    Usage,
    /// A file that the command line names is absent. Said: `no file NAME`.
    NoFile,
    /// The script cannot be parsed. Said: `script fault LINE KIND`.
    ScriptFault,
    /// boot.ini is over 65,536 bytes, or has over 64 entries. Said: `boot.ini fault KIND`.
    BootIniFault,
    /// The hive has a fault. Said: `hive fault KIND at OFFSET`.
    HiveFault,
    /// A file could not be read: the host's count of read faults rose. Nothing more is printed.
    ReadFault,
    /// Something could not be said: the host's count of write faults rose. Nothing more is printed.
    WriteFault,
    /// There was no memory. Nothing more is printed.
    Memory,
    /// A registry text has a fault. Said: `reg fault LINE KIND`.
    RegFault,
    /// All was done, and the report says that something was found. An answer, no refusal.
    Found,
}

impl Status {
    /// The program's exit number.
    pub fn code(self) -> u8
        ensures { result ≡ exit_of self }
    {
        match self {
            Status::Done => 0,
            Status::Usage => 1,
            Status::NoFile => 2,
            Status::ScriptFault => 3,
            Status::BootIniFault => 4,
            Status::HiveFault => 5,
            Status::ReadFault => 6,
            Status::WriteFault => 7,
            Status::Found => 8,
            Status::Memory => 9,
            Status::RegFault => 10,
        }
    }
}
