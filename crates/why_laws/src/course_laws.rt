//! What holds of what `why` says of an entry, by the course of the start: by its definitions and the book of startup, apart from any code.

mod left;
mod unmet;

pub use left::{each_item_was_left_at_the_end_of_its_phase, whoever_was_left_lacks_something};
pub use unmet::an_unmet_name_has_an_unmet_line;
