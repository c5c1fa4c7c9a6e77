//! The log of Windows NT to 8: `DIRT`, a bit for each sector of the bins data, and the sectors whose bit is on.
//!
//! `read_old` answers what a log is to a hive: whole, of another change, or faulty; `put_old` writes its sectors into the hive's
//! file. Rules: regf format 1.3 and 1.5; docs/format.md, "The logs of Windows".

mod pages;
mod reading;

pub use pages::put_old;
pub use reading::{OldReading, read_old};
