//! What is found by its parent stands, and the rest has a line.
//!
//! Laws alone, of the keys that `--by-parent` adds to what is salvaged. Definitions: `specs/Found.antt`, one incomplete key;
//! `specs/Searched.antt`, all of them in turn; `specs/Lines.antt`, which they are.

mod laws;

pub use laws::{
    no_byte_is_used_twice_for_what_is_found, the_incomplete_keys_are_those_with_a_line,
    the_nodes_that_are_tried_name_their_parent, what_is_found_stands_and_the_rest_has_a_line,
};
