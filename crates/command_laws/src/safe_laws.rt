//! What holds of the options of a start in safe mode, by their definitions, apart from any code.

mod laws;

pub use laws::{a_named_mode_is_as_if_the_entry_asked_for_it, images_lose_no_start};
