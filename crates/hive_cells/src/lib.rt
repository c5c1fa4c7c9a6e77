//! The bins data of a hive as a heap of cells.
//!
//! `read_cells` checks bytes as bins and cells and answers the heap, or the first check that fails
//! with the byte at which it stands. `CellHeap` is seen as its list of bins; `payload` looks up the
//! allocated cell that begins at an offset. `CellHeap::opened` answers an `OpenHeap`, whose cells are
//! allocated, written and freed in place. Rules: regf format 1.3 and 1.5, hive bins and cells.
#![tactic(auto)]

mod changes;
mod heap;
mod laws;
mod lookup;
mod marks;
mod open;
mod pushes;
mod read;
mod source;
mod spare;

pub use heap::{CellHeap, MOST_BINS};
pub use laws::{list_or_fault, one_fault, one_list, one_of_the_two};
pub use open::OpenHeap;
pub use read::read_cells;
pub use source::Source;
