//! The machine of a start, step by step.
//!
//! `Machine` is seen as the book's machine: a start that runs, the failures to come, whether the
//! next start falls back, and the vital names. Each call is one named step of it. It knows nothing of a disk or of a tree but
//! the control set that it is handed. After lack of memory the machine is as it was. Rules:
//! Windows Internals, 4th edition, startup; docs/startup.md.

mod accept;
mod attempt;
mod failures;
mod machine;
mod names;
mod parts;
mod phases;
mod queue;
mod refusal;
mod start;
mod tried;
mod vital;

pub use accept::is_current;
pub use boot_phases::boot_phases::{Phase, SetLists};
pub use boot_phases::error_control::Judgement;
pub use machine::Machine;
pub use phases::phase_word;
pub use refusal::EventRefusal;
pub use report_text::boot_report::Verdict;
pub use tried::Tried;
