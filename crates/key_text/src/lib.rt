//! One key of a registry tree, readable: what the command `key` prints.
//!
//! `key_report` finds the key that a path means, and prints its lines and those of the levels below it, as texts or as objects
//! of JSON. `data_form` reports in which form data of a type are printed, `push_kind` and `push_form` print types and forms.
//! Definitions: `specs/Found.antt`, `specs/Blocks.antt`, `specs/Lines.antt`, `specs/Data.antt`, `specs/Stamps.antt`.
#![tactic(auto)]

mod data;
mod date;
mod finding;
mod kind;
mod laws;
mod line;
mod month;
mod printing;
mod report;
mod split;
mod stamp;
mod values;
mod walk;
mod word;

pub use data::{DataForm, data_form, is_string_kind};
pub use finding::{spelled, true_path};
pub use kind::push_kind;
pub use laws::{
    a_date_stands_for_its_day, a_deeper_report_begins_with_the_key, a_form_determines_its_data,
    a_plain_path_is_read_back, a_printed_path_finds_its_key, a_stamp_has_a_text_of_its_own,
    no_key_is_printed_where_none_is_found, the_current_set_is_the_default_one,
    the_lines_of_a_key_determine_it,
};
pub use printing::{push_form, push_form_fields};
pub use report::key_report;
pub use split::split_at;
pub use stamp::push_moment;
pub use word::path_in;
