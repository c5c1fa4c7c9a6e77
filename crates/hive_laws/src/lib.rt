//! Laws of hives and their log: what commits, cuts and saved files leave, and that packing is read back.
#![tactic(auto)]

pub mod hive_laws;
pub mod packing_laws;
pub mod saved_laws;
