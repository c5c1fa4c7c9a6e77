//! The transaction logs that Windows writes: hashes, parts, entries, dirty pages.
#![tactic(auto)]

pub mod dirt_log;
pub mod entry_log;
pub mod log_parts;
pub mod marvin_hash;
