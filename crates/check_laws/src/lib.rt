//! What holds of the lines of a check.
#![tactic(auto)]

mod laws;

pub use laws::{
    a_start_leaves_out_whom_a_line_is_about, no_cycle_is_said_where_none_is_stuck,
    nothing_found_is_quiet, stuck_entries_are_the_greatest_set, the_order_only_adds_lines,
    what_no_line_is_about_starts_on_demand, without_wrong_needs_the_stuck_are_unmet,
};
