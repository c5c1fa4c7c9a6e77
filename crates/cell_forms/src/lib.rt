//! The forms of cells, both ways: key nodes, key values, security cells and lists.
//!
//! Each reader takes the payload of a cell and answers its form, or the first check of it that
//! fails at the cell's offset. It asks nothing of the bytes. Each writer answers the payload that
//! a form is spelled as, and what is spelled is read back, whatever fills the cell after it.
//! Rules: regf format 1.3 and 1.5, key node, key value, big data, key security, subkey lists.
#![tactic(auto)]

mod big_data;
mod bytes;
mod key_node;
mod key_value;
mod laws;
mod list_texts;
mod lists;
mod names;
mod security;
mod stored;

pub use big_data::{DbForm, db_bytes, read_db};
pub use bytes::read_bytes;
pub use key_node::{NkForm, NkSlice, nk_bytes, read_nk, see_nk};
pub use key_value::{VkForm, VkSlice, data_inside, read_vk, see_vk, vk_bytes};
pub use laws::{
    big_data_is_read_back, bytes_are_read_back, key_node_is_read_back, key_value_is_read_back,
    list_is_read_back, offsets_are_read_back, security_is_read_back,
};
pub use list_texts::{append_entries, name_hash, ri_bytes};
pub use lists::{ListForm, ListKind, Offsets, read_list, read_offsets};
pub use security::{SkForm, read_sk, sk_bytes};
pub use stored::{FirstUnit, StoredName, compare_stored};
