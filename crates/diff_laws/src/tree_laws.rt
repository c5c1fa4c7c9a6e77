//! Laws of comparisons of the trees of two control sets.
//!
//! When there is no line on keys and values, and when the answer with `--all` is that nothing differs. Definitions: `specs/Laws.antt`. This
//! project's own.

mod laws;

pub use laws::{
    sets_are_the_same_only_where_they_agree,
    sets_are_the_same_with_all_where_their_trees_are_equal,
    trees_have_no_line_where_they_are_equal,
};
