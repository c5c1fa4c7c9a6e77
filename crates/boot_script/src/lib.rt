//! Scripts of events: as `run`, `why` and `graph`, and `sweep` read them.
#![tactic(auto)]

pub mod boot_script;
pub mod quiet_script;
pub mod sweep_script;
