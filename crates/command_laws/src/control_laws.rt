//! What a reader of the report of `control` relies on: its lines are those of the calls of service control, in their
//! order, and so what holds of the calls holds of the report.

mod calls;
mod names;
mod order;

pub use calls::{a_command_is_its_call, a_report_tells_the_calls};
pub use names::names_that_fold_are_one;
pub use order::{
    a_start_takes_no_more, names_of_a_set_differ, what_is_listed_has_its_needs,
    what_is_stopped_goes_backwards, who_is_not_stopped_stays,
};
