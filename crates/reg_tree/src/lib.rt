//! Registry trees: keys and values, seen as the trees of the book of hives.
//!
//! A lookup answers the key or value itself, by folded names, the first in order where several fold
//! alike. Edits are made in steps, all or none. Nothing here knows of cells or bytes of a hive.
#![tactic(auto)]

mod apply;
mod bulk;
mod change;
mod copy;
mod find;
mod halves;
mod key;
mod laws;
mod levels;
mod lists;
mod same;
pub mod sizes;
mod steps;
mod stop;
mod value;
mod value_places;

pub use apply::{
    LONGEST_DATA, LONGEST_KEY_NAME, LONGEST_VALUE_NAME, MOST_BULK, MOST_PARENTS, is_bad_name,
};
pub use key::{Key, Keys};
pub use laws::an_edited_tree_is_valid;
pub use steps::{Steps, TreeStep};
pub use stop::EditStop;
pub use value::{Value, Values};
