//! What holds of what is reported of a name in a start, by its definitions and the book of startup, apart from any code.

mod lacks;
mod places;
mod reports;
mod states;

pub use lacks::lacks_are_the_needs_that_were_not_met;
pub use places::a_place_counts_those_before_it;
pub use reports::the_last_start_is_that_of_the_report;
pub use states::a_state_tells_of_the_try_line;
