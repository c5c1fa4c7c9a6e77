//! What a hive can hold of a run, where it can hold the tree that the run begins with: by the definitions and the book of startup, apart from any code.

mod sets;
mod trees;

pub use sets::{the_sets_of_a_loaded_tree_can_be_held, the_sets_of_a_valid_tree_can_be_held};
pub use trees::{a_loaded_tree_is_valid, a_run_leaves_a_valid_tree};
