//! The lines of one key, out of the cells of a hive: what the command `key` prints, where no tree of the hive is made.
//!
//! `report_in` finds the key that a path means, and prints its lines and those of the levels below it, as `key_text` prints them
//! of the whole tree. Of the cells it reads the names on the way, the key itself and as many levels below it as are asked for.

mod finding;
mod laws;
mod report;

pub use laws::{cut_levels_print_alike, the_way_to_a_key_prints_alike};
pub use report::report_in;
