//! Laws of `import`: a hive that a registry text was imported into, saved and read again loads as the lines report; and what the
//! options make of a text.

mod options;
mod saved;

pub use options::{
    a_text_in_utf8_is_read_as_in_utf16, the_name_of_the_current_set_is_written_out,
    void_steps_are_left_out,
};
pub use saved::what_was_saved_loads_as_told;
