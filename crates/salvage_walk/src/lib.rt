//! The tree of a damaged hive: what is salvaged of it, and a line for each fault.
//!
//! `salvage_tree` walks from the root, in the order of a load, and goes on after a fault: a part of which a check fails is left
//! out, uses no cell, and has a line. Rules: regf format 1.3 and 1.5; what is made of faults is this project's own.
#![tactic(auto)]

mod claims;
mod entries;
mod found;
mod fronts;
mod keys;
mod lines;
mod lists;
mod names;
mod parts;
mod root;
mod segments;
mod steps;
mod values;

pub use found::add_found;
pub use lines::{Incomplete, KeyPart, Walk, WalkLine};
pub use lists::Lists;
pub use root::{Salvaged, WalkedTree, salvage_tree, walk_tree};
