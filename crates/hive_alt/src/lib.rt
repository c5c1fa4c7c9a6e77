//! Ways to keep a hive on a disk: with a log, and with a second whole copy.
//!
//! A `Scheme` says what two files stand for, how a load repairs them, and how a commit goes so that a cut
//! leaves what was before or what is after. `LogScheme` is the log of `hive_log` and `hive_commit`;
//! `TwinScheme` keeps a second copy of the primary in the log's place. Rules: docs/format.md, "A twin file".
#![tactic(auto)]

mod blocks;
mod change;
mod changing;
mod committing;
mod files;
mod gathering;
mod log_scheme;
mod mending;
mod pair;
mod planning;
mod rewriting;
mod scheme;
mod twin_scheme;
mod writing;

pub use change::{ChangeStop, Changed};
pub use changing::{change_default, check_kept};
pub use hive_commit::{CommitStop, LoadStop, Recovered};
pub use log_scheme::LogScheme;
pub use scheme::Scheme;
pub use twin_scheme::TwinScheme;
