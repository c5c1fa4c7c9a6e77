//! What the options of `import` make of a text and of its steps.
//!
//! `utf16_of` is a text in UTF-8 as the same text in UTF-16. `set_steps` is the steps with a set's name in place of `CurrentControlSet`,
//! `left_steps` those that are left where steps that delete what isn't there are passed over.
//! Definitions: `specs/Encoding.antt`, `specs/Current.antt`, `specs/Left.antt`.
#![tactic(auto)]

mod current;
mod encoding;
mod left;
mod marks;
mod seen;
mod verdict;

pub use current::{SetSteps, set_steps};
pub use encoding::utf16_of;
pub use left::{LeftSteps, left_steps};
