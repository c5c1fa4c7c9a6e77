//! Lines of a start as objects of JSON.
//!
//! `line_json` (`specs/Objects.antt`) is the object of each line that a start can say. `printed_bytes` is a line in one of the two
//! forms, `push_line_object` appends its object; the other calls append the objects of a start in which nothing fails.

mod line;
mod objects;
mod words;

pub use line::{printed_bytes, push_line_object};
pub use objects::{
    push_end_object, push_entry_object, push_load_object, push_ok_object, push_phase_object,
    push_set_object, push_unmet_object, push_verdict_object, push_word_object,
};
