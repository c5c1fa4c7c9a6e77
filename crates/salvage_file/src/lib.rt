//! The file of a damaged hive: which faults it has, what is salvaged of it, and a sound hive of that.
#![tactic(auto)]

mod base;
mod opening;
mod recovery;
mod salvaging;
mod saving;

pub use opening::{FileState, Opened};
pub use recovery::LogStop;
pub use salvaging::{SalvagedHive, salvage_file};
pub use saving::{Saving, minor_of};
