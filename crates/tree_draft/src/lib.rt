//! Registry trees that many steps edit: the keys on their paths are opened once, and closed when all steps are made.
//!
//! An open key finds a child or a value by its folded name in a map, and moves no others to put one in or take one out,
//! so steps take the logarithm of the number of names each. Nothing here knows of cells or bytes of a hive.
#![tactic(auto)]

mod change;
mod children;
mod draft;
mod drafting;
mod open_values;
mod step;
mod stop;
mod values;

pub use drafting::apply;
