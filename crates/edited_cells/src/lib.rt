//! What an edit in place leaves where it was, and what the cells stand for after it: laws of the book of hives on cells,
//! whatever code there is.
//!
//! A cell belongs to a key, by the key's path from the root, in a role. A step of an edit names keys, and may change their
//! cells. Where a key gets other values or other children, the cells are well-formed again with that key changed in the
//! tree, the step leaves all cells but its own, and so steps in order leave all that is outside their footprint.
#![tactic(auto)]

mod deletion;
mod greatest;
mod growth;
mod keys;
mod outside;
mod owners;
mod rooms;
mod values;

pub use deletion::{a_key_is_taken_out, a_key_takes_its_size_along};
pub use greatest::greater_lengths_are_told;
pub use growth::{other_children_change_the_size, other_values_change_the_size};
pub use keys::{a_child_is_added, a_child_is_copied, a_key_is_deleted, a_key_is_made};
pub use outside::{steps_are_done_in_order, steps_leave_other_cells};
pub use owners::{each_cell_has_one_owner, owned_cells_are_allocated};
pub use rooms::{a_step_without_room_is_strained, steps_grow_within_their_strain};
pub use values::{
    a_value_is_deleted, a_value_is_set, a_value_is_set_in_place, a_value_of_a_new_name_is_set,
    numbers_are_written_over,
};
