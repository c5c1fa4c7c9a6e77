//! The report of a sweep: what an event said, and the word of each write and sync that it makes.
//!
//! `sweep_report` appends nothing else than the report of `specs/Report.antt`: the words of a call follow from its stage
//! (`specs/Stages.antt`), and its sectors from the log (`specs/Logged.antt`, `sectors_of`). Rules: docs/format.md, "Commit and recovery".

mod calls;
mod logged;
mod objects;
mod report;
mod said;
mod stages;
mod words;

pub use logged::{Logged, sectors_of};
pub use report::sweep_report;
