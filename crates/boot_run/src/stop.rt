//! Why a run was given up.

/// Why a run was given up.
#[derive(Clone, Copy, Debug, PartialEq, Eq)]
pub enum RunStop {
    /// The host could not say a line. Its count of write faults rose.
    Write,
    /// There was no memory, here or in the host or the disk.
    Memory,
}
