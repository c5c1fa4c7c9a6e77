//! The children of a damaged hive's keys that no list names, but that name their parents.
//!
//! `salvage_by_parents` salvages a tree as `salvage_tree` does, and then goes through the keys of which children may be missing. A
//! key node that is not in use and names such a key as its parent is one more child of it. Rules: regf format 1.3 and 1.5, key node;
//! that such children are looked for, and in which order, is this project's own.
#![tactic(auto)]

mod arranging;
mod draft;
mod index;
mod search;

pub use search::{ParentLine, SearchedTree, salvage_by_parents};
