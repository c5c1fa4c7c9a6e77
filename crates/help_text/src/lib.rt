//! What the program says of itself: the pages of help and the version.
//!
//! `page_of` is the text of a page, `version_text` that of the version. Each is a constant; the pages are kept in one
//! place, `src/texts.rt`. They are this project's own.
#![tactic(auto)]

mod laws;
mod pages;
mod texts;

pub use laws::each_page_lists_the_options;
pub use pages::{page_of, version_text};
