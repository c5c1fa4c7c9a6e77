//! The part of a hive's tree that its control sets need, read from its cells.
//!
//! `part` answers a tree with the key `Select`, and with what the services of the sets of some numbers are judged and started by; of the other
//! keys below the root it has the names alone. `select_numbers` reads the four numbers. No tree of the whole hive is made.

mod keys;
mod numbers;
mod reading;
mod set;

pub use numbers::select_numbers;
pub use reading::part;
