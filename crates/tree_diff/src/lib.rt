//! What differs between the trees of two control sets: every key and value.
//!
//! `put_trees` goes through the pairs of keys of two trees, whose names fold to one, and compares all that they have exactly.
//! Definitions: `specs/Heads.antt`, `specs/Trees.antt`. This project's own.
#![tactic(auto)]

mod counting;
mod heads;
mod items;
mod keys;
mod walk;
mod whole;

pub use whole::{Marks, put_trees};
