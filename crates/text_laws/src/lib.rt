//! What registry texts give back: a key that was written and read.
#![tactic(auto)]

mod back;

pub use back::{a_text_gives_its_key_back, a_text_is_read_as_its_edits, edits_build_the_key};
