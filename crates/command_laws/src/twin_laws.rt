//! What two files stand for that `twin` saved: what its lines tell.
//!
//! A file has zeros for a sector that is absent or can't be read. Where there is nothing to repair, nothing hangs on such a
//! sector: the primary's sector 0 can be read, too, as one that can't leaves the word to the second copy.

mod saved;

pub use saved::{a_torn_block_stands_for_nothing, what_was_saved_stands_as_told};
