//! What a report says of the commits of its run.

mod commits;
mod numbers;

pub use commits::the_last_commit_in_a_report_is_on_the_disk;
pub use numbers::{
    each_number_in_a_report_follows_the_one_before,
    the_disk_loads_under_the_last_number_or_the_next,
};
