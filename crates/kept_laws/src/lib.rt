//! Laws of what a start keeps: good sets, logons, orders, vital names.
#![tactic(auto)]

pub mod good_laws;
pub mod logon_laws;
pub mod order_laws;
pub mod vital_laws;
