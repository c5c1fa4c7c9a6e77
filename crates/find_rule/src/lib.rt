//! Where a text, or bytes, occur in a tree: what the command `find` finds.
//!
//! `Wanted` is what is looked for; it says of a name and of a value's data whether they are hit. Which places there are in a part of a
//! tree, which of them are hit, and how each is printed, is said in `specs/Hits.antt` and `specs/Lines.antt`; the laws say what that
//! amounts to.
#![tactic(auto)]

mod laws;
mod standing;
mod wanted;

pub use laws::{
    a_path_without_quotes_is_found_again, each_hit_is_told_and_nothing_else,
    each_hit_is_where_its_line_says, exact_hits_are_among_the_others,
    letters_of_either_case_are_one, lines_are_those_of_key, names_and_data_part_the_hits,
    nothing_in_the_part_is_left_out, objects_tell_the_report, places_stand_in_the_order_of_key,
    the_hits_of_a_key_are_its_own_and_its_childrens, what_stands_there_is_a_part,
};
pub use wanted::Wanted;
