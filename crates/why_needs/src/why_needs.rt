//! The needs of entries in a start: which attempt met them, which were lacking, and who the members of a group are.
//!
//! `starts_of` finds the attempts that started members of groups; `lacking_services` and `lacking_groups` the needs that the first attempts
//! did not meet; `ready_line` from which moment on an entry was ready; `members_of` the members of a set's groups. Definitions: `specs/`.

mod lacking;
mod members;
mod met;
mod ready;

pub use lacking::{lacking_groups, lacking_services};
pub use members::{GroupMembers, members_of};
pub use met::{GroupStarts, group_met, service_met, starts_of};
pub use ready::{ready_at, ready_line};
