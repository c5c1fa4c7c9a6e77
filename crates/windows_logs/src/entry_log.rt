//! The log of Windows 8.1 and later: its run of whole entries.
//!
//! `read_run` answers the entries of a log that count, and the fault that ends them, if one does; `put_entry` writes the pages of
//! one into a hive's file. Rules: regf format 1.5, "Log entry"; docs/format.md, "The logs of Windows".

mod entry;
mod growing;
mod pages;
mod run;

pub use entry::{Entry, Found};
pub use growing::{grows_whole, page_bytes};
pub use pages::put_entry;
pub use run::{Run, read_run};
