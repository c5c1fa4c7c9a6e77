//! What the definitions of `salvage` amount to.
//!
//! Laws alone: what is reported of a damaged hive is what a load would refuse first, what is salvaged is in cells of the hive and the rest
//! has a line, and what is saved loads as exactly the tree that was salvaged.
#![tactic(auto)]

mod bytes;
mod found;
mod hives;
mod laws;
mod plain;
mod saved;
mod walk;

pub use bytes::no_byte_is_used_twice;
pub use found::what_is_found_is_what_a_load_finds;
pub use hives::a_hive_is_salvaged_as_it_loads;
pub use laws::{
    a_log_is_read_for_a_dirty_hive_alone, a_salvaged_tree_is_valid, what_is_saved_loads_as_the_tree,
};
pub use plain::a_plain_hive_is_salvaged_as_it_loads;
pub use saved::what_is_saved_is_salvaged_as_it_is;
pub use walk::{
    the_walk_refuses_what_a_load_refuses, what_is_salvaged_stands_and_the_rest_has_a_line,
};
