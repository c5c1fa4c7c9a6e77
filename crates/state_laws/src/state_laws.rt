//! What holds between what `why` says of a name and the lines of the report of `run`, by their definitions and the book of startup, apart from any code.

mod moments;
mod started;
mod tries;
mod unmet;

pub use moments::only_those_before_it_are_attempted_while_an_entry_is_ready;
pub use started::a_need_is_met_where_it_was_started;
pub use tries::each_try_line_is_what_a_state_says;
pub use unmet::a_name_is_unmet_where_a_line_says_so;
