//! Laws of comparisons of two control sets, with the sets exchanged.
//!
//! What is printed of the one set is printed of the other, and the exit stays. Definitions: `specs/Turned.antt`. This project's own.

mod laws;

pub use laws::{exchanged_sets_have_the_same_exit, exchanged_sets_have_their_sides_exchanged};
