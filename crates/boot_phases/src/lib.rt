//! The order of a start: entries, groups and tags, phases, and what a failed entry does.
#![tactic(auto)]

pub mod boot_phases;
pub mod error_control;
pub mod group_order;
pub mod service_entries;
