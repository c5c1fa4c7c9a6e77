//! What a search for keys by their parents keeps of what is salvaged.
//!
//! Laws alone: `--by-parent` adds keys, and takes none away.

mod laws;

pub use laws::{
    a_key_within_a_tree_is_at_its_path, a_search_by_parents_adds_only,
    a_tree_with_found_keys_is_valid,
};
