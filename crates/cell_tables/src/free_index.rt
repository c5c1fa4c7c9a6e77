//! The free cells of a heap by place: which is the lowest that holds that many bytes, and which is the
//! last before a place. It takes no memory but in `of`, `copy` and `grow`.
//!
//! The sizes are lent by whoever asks (`Numbers`): for each slot of eight bytes the size of the free cell
//! that begins there, or 0. Kept is the greatest size of each page of 512 slots. A search looks at these,
//! and at the slots of two pages at most: for 16 MiB at 4096 numbers and 1024 slots, however many cells there are.

mod index;
mod search;

pub use index::FreeIndex;
pub use search::Numbers;
