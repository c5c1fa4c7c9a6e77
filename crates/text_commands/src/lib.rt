//! `export` and `import`: a hive as a registry text, and a registry text as one change of a hive.
#![tactic(auto)]

mod changing;
mod counts;
mod exporting;
mod fault;
mod importing;
mod making;
mod printing;
mod said;

pub use exporting::export;
pub use importing::import;
