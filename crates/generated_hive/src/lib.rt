//! The hive of a system that is generated: a control set with the same number of services as are asked for.
//!
//! The services are in ten groups, start in each of the three phases, and one in four needs another.
//! Rules: this project's own.
#![tactic(auto)]

mod file;
mod services;
mod tree;
mod values;

pub use file::generated_hive;
pub use tree::generated_tree;
