//! What holds of startup by its book, apart from any code: laws, and worked examples.
#![tactic(auto)]

mod changes;
mod fronts;
mod judging;
mod numbers;
mod order;
mod report;
mod saving;
mod waiting;

pub use changes::{
    a_beginning_keeps_last_known_good, a_plan_is_refused_only_for_size,
    a_plan_with_steps_changes_the_tree, a_save_adds_the_clone, the_select_line_says_what_select_is,
};
pub use fronts::{good_sets_only_grow, more_events_go_on, wakes_and_outcomes_are_taken_in_order};
pub use judging::{
    a_critical_failure_stops, a_severe_failure_falls_back, each_cell_of_the_judgement,
};
pub use numbers::{
    a_set_that_no_number_names_retires, a_start_guards_what_it_takes, all_numbers_are_taken,
};
pub use order::{
    a_plan_has_each_taken_entry_once, groups_listed_again_change_no_order,
    tags_follow_the_group_order_list, the_order_of_a_phase_is_one, unlisted_groups_come_last,
};
pub use report::a_report_tells_its_run;
pub use saving::the_clone_is_saved;
pub use waiting::{
    a_cycle_is_unmet, an_empty_group_is_not_met, at_most_one_entry_is_next,
    demand_start_goes_two_deep, demand_start_is_the_least_closed_set,
    what_an_entry_needs_goes_first,
};
