//! Worked examples of the book of hives. Each is a definition at one input, or at one of a kind, with the value that it
//! computes to: one of the book, or of `nt_bytes` for names and strings. The values are those of the format's tables,
//! worked out by hand, or of files that other programs wrote.
#![tactic(auto)]

mod base;
mod edits;
mod footprints;
mod forms;
mod in_place;
mod loads;
mod logs;
mod looking;
mod names;
mod packing;
mod recovery;
mod sizes;
mod strains;
mod walks;

pub use base::the_checksum_of_a_root_alone;
pub use edits::{
    a_child_is_added, a_child_is_copied, a_full_hive, a_full_hive_of_segments, a_key_is_made,
    a_key_is_removed, a_value_is_deleted, a_value_is_set, bad_names, keys_that_are_there,
    missing_keys, no_step_or_all, too_deep_a_key, too_long_names, too_many_bytes,
};
pub use footprints::{
    cells_of_new_keys, cells_of_removed_keys, cells_of_the_start_value, cells_of_two_segments,
    cells_of_values,
};
pub use forms::{
    cut_short, faults_of_bins_and_cells, faults_of_fields, faults_of_names, lists_cut_short,
    other_signatures,
};
pub use in_place::{a_count_goes_up_and_down, keys_are_counted};
pub use loads::{
    bins_of_one_driver, forms_of_one_driver, one_driver_loads, uses_of_one_driver,
    values_of_one_driver,
};
pub use logs::{a_log_of_longer_data, a_log_of_one_sector};
pub use looking::sectors_that_recovery_asks_for;
pub use names::{names_are_stored, names_fold, names_have_hashes, strings_are_read};
pub use packing::{
    a_ring_of_three_is_packed, a_root_alone_is_packed, one_driver_is_packed,
    two_descriptors_are_packed, two_segments_are_packed,
};
pub use recovery::{
    a_clean_hive, a_hive_with_its_log, a_hive_with_unreadable_sectors, faults_of_a_base_block,
    faults_of_a_log, faults_of_a_primary, faults_of_unreadable_sectors,
};
pub use sizes::{a_value_of_two_segments, cells_of_data, lists_of_501_children};
pub use strains::{room_for_keys, room_for_lists, room_for_values};
pub use walks::{
    a_descriptor_serves_twice, a_family_stands, big_data_are_read, faults_of_a_family,
    faults_of_big_data, keys_without_end, roots_that_are_no_keys,
};
