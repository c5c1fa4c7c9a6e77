//! What the logs of Windows have in common: base blocks, whole sectors, pages, faults.
//!
//! `read_wide` reads the base block of a hive of up to 268,431,360 bytes of bins data, or of a log; `fill` makes a file whole
//! sectors. What pages are and how they are written is in `specs/Pages.antt`. Rules: docs/format.md, "The logs of Windows".

mod base;
mod fault;
mod filling;

pub use base::{FileRole, is_wide_size, read_wide};
pub use fault::{LogFault, LogFaultKind};
pub use filling::fill;
