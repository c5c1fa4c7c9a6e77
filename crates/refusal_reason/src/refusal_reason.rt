//! Why a command was refused, in one line for standard error.
//!
//! `Noted` is a host that does what another host does, and notes what a refusal was about: the first bytes that were printed, the file that
//! could not be read or written, and whether the hives are dirty. After the command `explain` says the reason on standard error, where the
//! command line asks for that with `--verbose`: a line made of the command line, the notes and the files, by `reason_lines`.

mod explaining;
mod laws;
mod line;
mod noted;
mod notes;

pub use explaining::explain;
pub use laws::{
    a_refusal_is_explained_by_words_and_files, a_refusal_says_its_fault, an_absent_file_is_named,
};
pub use line::reason_line;
pub use noted::Noted;
pub use notes::Notes;
