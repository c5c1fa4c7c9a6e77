//! The bins data of a damaged hive: where cells begin, and which bins are not whole.
//!
//! `lay_out` reads any bytes. A bin of which each check succeeds is whole, and its cells begin where it has them. The bytes
//! from another bin up to the next one are loose: a cell begins at each place of eight bytes that names a length which ends
//! among them. Rules: regf format 1.3 and 1.5, hive bins and cells; what is made of faults is this project's own.
#![tactic(auto)]

mod cells;
mod checks;
mod layout;
mod loose;
mod whole;

pub use cells::DamagedCells;
pub use layout::{BrokenBin, Layout, Mark, lay_out};
