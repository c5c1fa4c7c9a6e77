//! What the texts of `key` determine: their lines, and by them the key.

mod laws;

pub use laws::{
    a_depth_past_the_last_level_adds_nothing, a_text_determines_its_key,
    a_text_determines_its_lines, a_text_determines_what_it_shows,
    a_text_without_descriptors_determines_the_rest, texts_of_different_depths_show_all,
    the_lines_of_a_key_fit,
};
