//! Laws of comparisons of two control sets.
//!
//! When there is no line on services, groups and boots, and when the answer is that nothing differs. Definitions: `specs/Laws.antt`. This
//! project's own.

mod laws;

pub use laws::{
    a_set_is_like_itself, all_only_adds_lines, boots_are_the_same_where_they_agree,
    groups_have_no_line_where_they_agree, services_have_no_line_where_they_agree,
    sets_that_agree_are_the_same,
};
