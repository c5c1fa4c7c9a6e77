//! Laws of the table of words that the command `sweep` prints.
//!
//! Each word is true of what a cut in its call leaves, and the numbers of calls and words are proved. Definitions: `specs/`. This project's own.
#![tactic(auto)]

mod columns;
mod counts;
mod cuts;
mod lists;
mod recoveries;
mod tables;

pub use columns::{
    a_line_prints_a_word_of_each_column, each_column_turns_once,
    the_nth_word_is_that_of_the_nth_call,
};
pub use counts::{
    each_call_has_four_words, no_calls_are_counted_exactly_where_nothing_is_written,
    the_calls_are_those_that_the_disk_counted, the_calls_of_a_commit_are_counted,
    the_calls_of_a_recovery_are_counted,
};
pub use cuts::{
    a_cut_leaves_what_the_table_says,
    a_cut_while_the_base_block_is_opened_leaves_what_its_sector_says, a_word_names_the_tree,
    the_stages_are_the_calls,
};
pub use lists::{
    a_log_tells_the_table, the_log_of_a_commit_tells_its_table,
    the_log_of_a_recovery_tells_its_table, the_table_lists_what_is_written,
};
pub use recoveries::{
    a_cut_in_a_recovery_and_a_commit_leaves_what_the_table_says,
    a_cut_in_a_recovery_leaves_what_the_table_says,
};
pub use tables::the_table_of_a_report_is_true;
