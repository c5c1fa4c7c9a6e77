//! The cells of a hive's two files, judged whole, of which no tree is made.
//!
//! `judged` recovers what the files hold, judges its bins and the whole tree in them, and answers the cells, or the first fault
//! that a load of the same files would name. A reader takes from the cells what it wants. Rules: docs/format.md.

mod judging;

pub use judging::{JudgedCells, judged};
