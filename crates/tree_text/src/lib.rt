//! The text of a registry tree, which the command `show` prints.
//!
//! `shown_text` is a line on the hive and the tree as lines, `shown_in` this or each line as one object of JSON. They ask nothing
//! of the tree and take time linear in the text. Definitions: `specs/TreeText.antt`, `specs/TreeObjects.antt`.
#![tactic(auto)]

mod laws;
mod line;
mod object;
mod objects;
mod shown;
mod walk;

pub use laws::{a_system_with_one_driver_is_shown, each_key_and_value_is_a_line};
pub use shown::{shown_in, shown_text};
