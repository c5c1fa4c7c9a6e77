//! The script of a run: its lines, its words and the events that they stand for.
//!
//! `read_script` answers the events in order, or the number and kind of the first faulty line. It
//! takes any bytes, in time linear in their number. The grammar is stated in `specs/`, line by
//! line: `Script.antt` the lines, `Words.antt` the words of a line, `Commands.antt` what they mean.

mod commands;
mod data;
mod disk_words;
mod event;
mod laws;
mod names;
mod numerals;
mod script;
mod starting;
mod stop;
mod words;

pub use event::{Event, Script};
pub use laws::{a_script_reads_as_what_it_spells, words_are_those_written};
pub use script::read_script;
pub use stop::{LineStop, ScriptFault, ScriptFaultKind, ScriptStop};
pub use words::{after_spaces, words_in};
