//! What the lines of reports are made of: texts in quotes, written paths, numbers, and objects of JSON.
//!
//! `push_quoted` is a text of UTF-16 units as a JSON string, `push_path` a path from a key down as a line of text has it; with
//! `open_object`, the `push_.._field` calls and `close_object` a line is one object of JSON. Definitions: `specs/`.

mod digits;
mod form;
mod laws;
mod object;
mod path;
mod quoted;

pub use digits::{push_hex, push_number};
pub use form::ReportForm;
pub use laws::texts_in_quotes_are_told_apart;
pub use object::{
    close_object, open_object, push_flag_field, push_null_field, push_number_field, push_numbers,
    push_numbers_field, push_text_field, push_texts_field, push_word_field,
};
pub use path::{push_path, push_written};
pub use quoted::{push_quoted, push_quoted_texts, push_quoted_word};
