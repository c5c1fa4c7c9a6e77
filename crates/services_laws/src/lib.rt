//! What holds of the lines of `services`.
#![tactic(auto)]

mod laws;

pub use laws::{
    a_field_is_what_a_start_reads, a_sort_moves_lines_alone, a_time_takes_what_is_not_before_it,
    a_turn_is_an_attempt_or_unmet, check_is_of_one_mind, each_line_says_these_of_its_key,
    each_listed_key_has_its_line, each_mark_has_its_condition,
    each_printed_time_is_read_as_its_stamp, the_counts_are_those_of_the_lines,
};
