//! What holds of every run, apart from any code.
//!
//! Where no operation of the disk is cut or fails, the run is the quiet one. Each wake expects every change that was
//! acknowledged. A `go` without a number takes the same number of steps of the starter as there can be, so a loop that steps until the
//! start is done or over says the same.

mod going;
mod parts;
mod quiet;
mod still;
mod told;
mod words;

pub use going::more_steps_change_nothing;
pub use parts::a_run_goes_on_event_by_event;
pub use quiet::without_stops_the_run_is_the_quiet_one;
pub use still::with_nothing_more_the_disk_may_load_as_before;
pub use told::{a_commit_line_settles_its_state, each_wake_has_every_acknowledged_change};
pub use words::{failures_are_noted_by_folded_name, two_trees_are_one_where_the_test_says_so};
