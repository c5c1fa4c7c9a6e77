//! What a phase of a start takes, in its order.
//!
//! `plan` reads the services, the orders of groups and tags, and answers the entries of a phase, each before
//! the next. Rules: Windows Internals, 4th edition, startup; Microsoft's documentation of service entries.

mod kind;
mod lists;
mod phase;
mod planning;
mod rank;
mod taken;
mod tried;
mod untried;

pub use lists::SetLists;
pub use phase::Phase;
pub use planning::plan;
pub use rank::{a_plan_is_in_order, each_place_counts_those_before};
pub use taken::need_of;
