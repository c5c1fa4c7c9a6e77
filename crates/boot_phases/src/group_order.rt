//! The order of service groups, and of tags within a group.
//!
//! `read_orders` reads both lists of a control set once, with the places of names and tags; `rank` answers
//! where an entry stands by its group and its tag, without a scan, and takes no memory. Rules: Windows
//! Internals, 4th edition, startup; Microsoft's documentation of service entries.

mod lists;
mod order;
mod place;
mod tags;

pub use order::{GroupOrder, Orders, read_orders};
pub use place::rank;
pub use tags::Tags;
