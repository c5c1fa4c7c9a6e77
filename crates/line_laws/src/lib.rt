//! What the objects of lines say: the lines, whose layouts are known by samples of each kind.
#![tactic(auto)]

mod laws;

pub use laws::{each_object_is_a_printable_line, objects_tell_the_lines, one_report_in_both_forms};
