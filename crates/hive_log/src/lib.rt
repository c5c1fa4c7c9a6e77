//! The log of a hive: what a commit writes first, and what a hive is recovered as.
//!
//! The small functions on sectors and bits are what a commit writes a log with, sector by sector. Rules: docs/format.md, "The log".
#![tactic(auto)]

mod bitmap;
mod blocks;
mod files;
mod gathering;
mod looking;
mod marking;
mod outcome;
mod sectors;
mod stops;

pub use bitmap::{bitmap_sector, bitmap_sectors, first_dirty, has_bit};
pub use blocks::{goes_with, read_logged, read_primary_block};
pub use files::{TwoFiles, recovered};
pub use gathering::read_sector;
pub use looking::{Reading, read_recovered};
pub use marking::mark_dirty;
pub use outcome::Recovered;
pub use sectors::{copy_sector, logged_block};
pub use stops::LoadStop;
