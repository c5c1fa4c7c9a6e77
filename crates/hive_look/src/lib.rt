//! Where the keys and values of a hive are in its cells, and how long these are: lookups on well-formed cells.
//!
//! A lookup goes from cell to cell and judges nothing, since the cells are known to be well-formed. Each takes the cells and an
//! offset in bytes from the start of the bins data.
//! Rules: regf format 1.3 and 1.5, key node, key value and subkey lists; that names are compared folded is that of the registry.
#![tactic(auto)]

mod children;
mod data;
mod measure;
mod path;
mod uses;
mod values;

pub use children::child_names;
pub use data::{data_places, data_room, db_in, segments_in};
pub use measure::{cell_len, data_len, value_len};
pub use path::{child_at, key_along, key_at};
pub use uses::push_key;
pub use values::{dword_under, value_at};
