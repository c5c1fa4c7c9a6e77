//! A hive as its cells: looked into where it stands, without its tree in memory.
//!
//! `HiveBytes::from_cells` judges the whole tree once, and answers the hive or its first fault. Afterwards
//! the type keeps that its cells are well-formed, so a lookup goes from cell to cell and judges nothing.
//! Rules: regf format 1.3 and 1.5, key node, key value and subkey lists; that names are compared folded is
//! that of the registry.
#![tactic(auto)]

mod adding;
mod adding_child;
mod cells;
mod copying_child;
mod deleting;
mod dropping;
mod edit;
mod give;
mod grafting;
mod hive;
mod holding;
mod key_size;
mod making;
mod new_value;
mod set;
mod steps;
mod strain;
mod telling;
mod unset;

pub use hive::HiveBytes;
