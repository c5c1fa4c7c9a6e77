//! Laws of what `salvage` finds.
#![tactic(auto)]

pub mod found_laws;
pub mod parent_laws;
