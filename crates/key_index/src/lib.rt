//! The subkey lists of a key, searched and changed in the cells that they are in.
//!
//! `find_child` answers the child that has a name: by binary search, which takes few steps where the children
//! are in the order of their folded names, and after a miss by a look at each of them. `insert_child`
//! and `remove_child` write the lists again, in packed form as one run of cells, and free the old ones.
//! Rules: regf format 1.3 and 1.5 for the lists; that names are compared folded is that of the registry;
//! the length of the lists is this project's own.
#![tactic(auto)]

mod change;
mod children;
mod entries;
mod find;
mod hints;
mod laws;
mod node;
mod removal;
mod source;

pub use change::{bins_fit, free_all, insert_child, remove_child};
pub use find::find_child;
pub use laws::{keys_list_siblings, lists_are_apart};
pub use removal::Removal;
pub use source::payload;
