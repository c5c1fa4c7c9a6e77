//! A registry tree out of the cells of a hive.
//!
//! `read_tree` walks from a root cell, and answers the tree that stands there, or the first check that
//! fails with the place at which it does; `judge` answers how many bytes that tree takes packed, or the
//! same, and makes no tree. They ask nothing of the cells. The order of the checks is in
//! docs/format.md and in the book of hives, `Walk`; this project's own.
#![tactic(auto)]

mod bits;
mod by_fold;
mod data;
mod few;
mod judging;
mod key;
mod laws;
mod list;
mod sizes;
mod taken;
mod used;
mod uses;
mod validity;
mod value;
mod weighing;

pub use judging::judge;
pub use key::read_tree;
pub use laws::{load_or_fault, one_load, one_stands, stands_where_none_fails, well_formed_passes};
pub use validity::a_well_formed_tree_is_valid;
