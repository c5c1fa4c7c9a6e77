//! The host of a program: its files, as they are given, standard output and standard error.
//!
//! It shows what its files tell: those of the system tell no content, since no contract can say what a file holds or what standard
//! output takes. It counts each file that it is asked for, and each error.
#![tactic(auto)]

mod files;
mod host;
mod output;
mod place;
mod staged;
mod system_files;

pub use files::{FileFault, Files, NoFiles};
pub use host::StandardHost;
pub use output::{say_error_out, say_out, take_standard_descriptors};
pub use system_files::SystemFiles;
