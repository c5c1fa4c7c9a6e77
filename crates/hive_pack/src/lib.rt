//! The packed form of a tree in a version of the format: the bins data in which each key stands with
//! its cells in sequence.
//!
//! `pack` appends cell after cell, and fills each list of offsets in once they are known, so its
//! work is linear in the tree. Rules: regf format 1.3 and 1.5 for the cells, this project's own for
//! their order, for which descriptors share a cell, and for the length of the lists.
#![tactic(auto)]

mod below;
mod bins;
mod forms;
mod laws;
mod lists;
mod numbers;
mod ring;
mod security;
mod sizes;
mod values;
mod write;

pub use below::{cells_below, sharing_keys, tree_fits};
pub use bins::pack;
pub use forms::NOWHERE;
pub use laws::{
    packed_cells_are_well_formed, packed_form_is_its_bins, packed_tree_stands,
    security_cells_are_a_ring, security_cells_count_their_keys,
};
pub use lists::{first_part, name_hint, write_lists};
pub use sizes::{cell_size, data_len, is_big, is_narrow, list_len, name_len, part_count};
pub use values::{put_cell, write_data};
