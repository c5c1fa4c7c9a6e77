//! What `make` saves loads as the run of the made hive says.

mod saved;

pub use saved::{a_made_hive_is_saved_as_its_run_leaves_it, a_quiet_run_leaves_nothing_open};
