//! What the definitions of `replay` amount to.
//!
//! Laws alone: of what a result is made and which bytes of the hive it leaves, how far the entries of the logs are applied and where a run
//! of them ends, that a second replay changes nothing, and that an old log gives what a load recovers.
#![tactic(auto)]

mod laws;

pub use laws::{
    a_broken_entry_ends_its_run, a_changed_hive_is_clean, a_large_base_block_is_read_back,
    a_replayed_hive_stays, a_result_is_made_of_whole_entries,
    an_old_log_gives_what_a_load_recovers, entries_are_applied_as_far_as_they_go,
    entries_are_applied_to_the_last, pages_change_no_other_byte, the_last_line_is_what_was_done,
    the_logs_of_a_clean_hive_change_nothing, whole_entries_are_folded,
};
