//! What a run without stops leaves of the disk.

mod rest;

pub use rest::a_run_without_stops_leaves_nothing_open;
