//! What holds of single failures, by their definitions and the book of startup, apart from any code.
#![tactic(auto)]

mod blocks;
mod leaning;
mod lost;
mod off;
mod reports;

pub use blocks::the_blocks_of_a_name_are_those_of_the_whole;
pub use leaning::{a_line_stands_for_each_that_leans, whoever_needs_one_that_leans_leans};
pub use lost::{
    an_entry_off_is_no_better_than_its_failure, no_failure_starts_another,
    the_lost_of_a_failure_are_unmet_and_lean, the_unmet_of_a_block_are_newly_unmet,
};
pub use off::an_entry_that_is_off_has_start_four;
pub use reports::{
    a_block_is_what_two_reports_differ_in, a_start_takes_a_set_that_can_be_held,
    a_start_takes_the_set_of_the_edited_hive, what_is_told_is_what_a_run_reports,
};
