//! `diff`: what differs between two control sets, and between the boots that they give.
//!
//! `diff` reads one or two hives and prints what differs between two of their sets, or the first obstacle. Its status says whether
//! something does. It writes nothing and has no disk.

mod command;
mod comparing;

pub use command::{Finding, diff};
