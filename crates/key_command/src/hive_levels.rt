//! Some levels of the tree that is in the cells of a hive.
//!
//! `read_along` makes the keys that a path leads along, each by its name alone, and of the key at its end that many levels with
//! their values. What is not asked for is not read: of the children of a key on the way it looks at the names alone.
//! Rules: regf format 1.3 and 1.5, key node, key value and subkey lists; names are compared folded, as in the registry.

mod along;
mod cells;
mod cut;
mod data;
mod lists;
mod names;
mod node;
mod values;

pub use along::read_along;
