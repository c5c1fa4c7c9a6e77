//! The last operation of a run without stops.

mod last;

pub use last::the_last_operation_of_a_quiet_run_is_known;
