//! The program `ntmend`: a hive recovered from its log and compacted, in place.
#![tactic(auto)]

pub mod hive_mend;
pub mod mend_command;
