//! Which control set a start takes, and what its beginning and a good start change of the sets.
//!
//! `read_select` and `sets_in` read a tree: the four numbers of `Select`, and which numbers name sets.
//! `plan_begin` and `plan_save` answer a plan out of these alone: the number, the numbers of `Select` then,
//! and the steps that lead there. Rules: Windows Internals, 4th edition, startup; docs/startup.md, "Begin"
//! and "A good start and its save".
#![tactic(auto)]

mod name;
mod numbers;
mod plan;
mod sets;
mod steps;
mod stop;
mod taken;

pub use name::{set_name, set_path};
pub use numbers::{SelectNumbers, read_select};
pub use plan::{SetPlan, plan_begin, plan_save};
pub use sets::{select_numbers, set_of};
pub use steps::select_path;
pub use stop::SelectStop;
pub use taken::{TakenNumbers, sets_in, sets_named};
