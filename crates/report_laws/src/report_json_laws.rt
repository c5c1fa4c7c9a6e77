//! The reports of commands by their objects: each line has its text back.

mod reports;

pub use reports::{
    a_report_of_check_is_read, a_report_of_diff_is_read, a_report_of_key_is_read,
    a_report_of_replay_is_read, a_report_of_run_is_read, a_report_of_salvage_is_read,
    a_report_of_show_is_read, a_report_of_sweep_is_read, a_report_of_whatif_is_read,
    a_report_of_why_is_read, the_objects_of_a_graph_tell_it,
};
