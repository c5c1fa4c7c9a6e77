//! Laws of `diff`: sets, trees, boots, and both inputs turned.
#![tactic(auto)]

pub mod boot_laws;
pub mod diff_laws;
pub mod tree_laws;
pub mod turned_laws;
