//! ARC paths and boot.ini: which entry a start takes, and which directory it means.
#![tactic(auto)]

pub mod arc_path;
pub mod boot_ini;
