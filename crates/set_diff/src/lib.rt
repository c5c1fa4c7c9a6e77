//! What differs between two control sets, and between the boots that they give.
//!
//! `put_sets` compares services, orders and boots of two sets, by folded names; `close` ends the lines. Rules: Microsoft's
//! documentation of service entries; Windows Internals, 4th edition, startup; the lines are this project's own.
#![tactic(auto)]

mod boot;
mod closing;
mod comparing;
mod groups;
mod names;
mod service;
mod shown;

pub use boot::{Attempt, QuietBoot};
pub use closing::{Closed, close};
pub use comparing::put_sets;
pub use names::{lacks, shared};
pub use service::Service;
pub use shown::names_same;
