//! A search for files, written once: what it finds, and how many files it asks for.
//!
//! `Search` of `specs/Search.antt` is a list of steps; `Seeks` says that a call made it. `file_if_named` and `boot_files` are searches that
//! several commands make; `system_at` reads the system's path.

mod searching;

pub use searching::{BootFiles, boot_files, file_if_named, system_at};
