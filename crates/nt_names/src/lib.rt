//! Names as startup compares them: their places in tables, the names that startup reads, names written as text.
#![tactic(auto)]

pub mod name_places;
pub mod startup_names;
pub mod written_name;
