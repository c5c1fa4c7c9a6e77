//! Laws of the book of hives: of definitions alone, whatever code there is. A few of them stand above the book: what a cut
//! within a commit leaves (of `hive_commit` and `nt_edge`).

mod base;
mod cuts;
mod footprints;
mod heaps;
mod images;
mod in_place;
mod logs;
mod looking;
mod packing;
mod recovery;
mod sizes;
mod spelling;
mod standing;
mod strains;

pub use base::a_checksum_is_no_reserved_word;
pub use cuts::{a_cut_leaves_one_of_two_readings, a_cut_leaves_one_of_two_trees};
pub use footprints::{a_footprint_goes_on, a_footprint_only_grows};
pub use heaps::bins_data_are_bins_or_have_a_fault;
pub use images::a_write_is_kept_or_lost_by_itself;
pub use in_place::cells_keep_themselves;
pub use logs::a_log_leaves_out_what_is_there;
pub use looking::{
    a_clean_hive_needs_no_log, recovery_asks_for_each_sector_once, recovery_asks_in_order,
    recovery_asks_where_it_looks, recovery_looks_nowhere_else, seven_sectors_are_left_alone,
    what_recovery_looks_at_is_there,
};
pub use packing::packed_lists_are_written_lists;
pub use recovery::{
    a_log_is_read_back, saved_files_are_recovered_alike, what_is_carried_is_recovered,
};
pub use sizes::sizes_add_up;
pub use spelling::{a_base_block_is_read_back, forms_are_read_back, lists_are_read_back};
pub use standing::{
    an_image_loads_or_has_a_fault, one_tree_stands, sectors_of_files_are_whole,
    well_formed_cells_have_no_fault,
};
pub use strains::{
    a_refused_step_needs_no_room, lists_have_room, strain_goes_on, strain_never_falls,
};
