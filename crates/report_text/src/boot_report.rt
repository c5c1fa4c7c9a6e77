//! The lines of the report, and their text.
//!
//! `Line` has one variant for each line that a run can say, `line_bytes` is its text with LF at the
//! end, and each kind of word has its text alone (`verdict_text` and others). The text of each line is stated in the book of startup, `start_model/specs/Lines.antt`.

mod laws;
mod name;
mod printing;
mod writing;

pub use laws::a_report_tells_how_the_disk_fared;
pub use name::push_name;
pub use printing::{
    commit_text, event_text, load_text, phase_text, reason_text, save_text, set_text, verdict_text,
};
pub use report_words::{CommitWord, EventWord, Line, PhaseWord, RefusedWord, TryWord, Verdict};
pub use writing::line_bytes;
