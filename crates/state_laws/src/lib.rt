//! Laws of what became of each service, and of what would be enough.
#![tactic(auto)]

pub mod enough_laws;
pub mod held_laws;
pub mod state_laws;
