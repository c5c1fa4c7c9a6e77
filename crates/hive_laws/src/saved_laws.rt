//! An image that loads, saved as its files, loads the same: what a disk answers of a hive is the hive.
//!
//! A file has zeros for a sector that is absent or can't be read. Where an image loads, nothing hangs on such a sector, but
//! for the primary's sector 0: one that can't be read says that the log is to be taken, and zeros are no base block.

mod saved;
mod taken;
mod untorn;

pub use saved::{
    a_clean_primary_loads_alone, a_torn_block_is_not_saved, filled_sectors_change_no_load,
    saved_files_load,
};
pub use taken::{taken_files_load, takes_in_a_row_are_of_one_image};
pub use untorn::only_a_write_in_flight_is_torn;
