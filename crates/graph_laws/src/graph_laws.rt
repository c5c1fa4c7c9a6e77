//! What holds of the graph of a start, by its definitions, apart from any code.

mod attempts;
mod needs;
mod shown;
mod told;

pub use attempts::numbers_are_of_attempts;
pub use needs::edges_are_needs;
pub use shown::{
    a_name_is_shown_with_all_that_it_reaches_and_all_that_reach_it,
    what_is_shown_is_numbered_in_order, without_a_name_the_taken_are_shown_and_what_they_need,
};
pub use told::the_graph_of_a_start_is_told_by_its_text;
