//! The round trip of packing, as a law on the packed form and on what both readers are proved to answer.

mod round_trip;

pub use round_trip::a_packed_tree_is_read_back;
