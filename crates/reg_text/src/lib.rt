//! Registry texts: the form "Windows Registry Editor Version 5.00", in UTF-16 after its mark.
//!
//! `reg_text` writes a key with all below it, `read_reg` reads a text as edits or names its first faulty
//! line. Both ask nothing of what they are given and take time linear in the text and the edits.
//! Definitions: `specs/Writing.antt` and `specs/Reading.antt`.
#![tactic(auto)]

mod digits;
mod edits;
mod item;
mod key_line;
mod keys;
mod line;
mod names;
mod quotes;
mod reading;
mod state;
mod stop;
mod units;
mod value_line;
mod values;
mod writing;

pub use key_line::split_path;
pub use reading::read_reg;
pub use stop::{RegFault, RegFaultKind, RegStop};
pub use writing::reg_text;
