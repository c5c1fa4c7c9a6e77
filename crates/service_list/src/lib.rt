//! The drivers and services of a control set as an engineer asks for them: what starts when, as whom, from which file, in which place of the start.
//!
//! `services` answers the lines on a set of a hive's tree: the listed keys that pass the filters, in the order that is asked for, and their counts.
//! Rules: Microsoft's documentation of service entries; Windows Internals, 4th edition, startup; this project's own.
#![tactic(auto)]

mod counts;
mod entry;
mod field;
mod folders;
mod kinds;
mod listing;
mod marks;
mod names;
mod overrides;
mod sorting;
mod turns;

pub use counts::Counts;
pub use entry::{NumberFields, ServiceEntry, TextFields};
pub use field::Field;
pub use kinds::{Selection, SortBy};
pub use listing::{ServiceLine, ServiceLines, services};
pub use marks::Mark;
pub use overrides::Override;
pub use turns::Place;
