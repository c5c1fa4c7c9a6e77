//! The entries of a control set's services, by name and in registry order.
//!
//! `entries` reads them once; a table finds an entry by its place or by its name. Rules: Microsoft's
//! documentation of service entries.

mod entry;
mod table;

pub use entry::{Entries, Entry};
pub use table::{ServiceTable, entries};
