//! What objects of JSON tell: the line of a report that each is.
#![tactic(auto)]

mod lines;
mod objects;
mod reports;
mod tree_lines;

pub use lines::{a_line_is_printed_in_ascii, an_object_tells_its_line, objects_tell_their_lines};
pub use objects::{
    an_object_is_a_printable_line, an_object_tells_its_fields, objects_tell_their_fields,
};
pub use reports::{each_line_of_a_report_is_an_object, the_objects_of_a_report_tell_its_text};
pub use tree_lines::{
    a_key_or_value_is_printed_in_ascii, an_object_tells_its_key_or_value,
    each_key_and_value_is_an_object, objects_tell_what_is_shown,
};
