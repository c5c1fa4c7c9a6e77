//! The laws. Each has its statement in `specs/Laws.antt`.

ghost use Rattle.diff_laws.specs.tree_laws.Laws.{NoLineWhereEqual, SameWithAll};
ghost use Rattle.diff_laws.specs.tree_laws.Same.{SameOnlyWhereAgree};

/// There is no line on the keys and values of two sets exactly where the two trees are equal but for the names of the sets' own keys: class, security
/// descriptor, flags and time of the last write of each key, its values in order with name, type and data, and its children in order with their
/// names. Each key of the first set must be one that a hive can hold, so that no two values, and no two children, of a key have names that fold to
/// one. Nothing is asked of the second.
pub fn trees_have_no_line_where_they_are_equal()
    ensures { NoLineWhereEqual }
{}

/// With all keys and values compared the answer is that two sets are the same exactly where it is so without them, both sets are there, and their
/// trees are equal but for the names of the sets' own keys. Each key of the first hive must be one that a hive can hold.
pub fn sets_are_the_same_with_all_where_their_trees_are_equal()
    ensures { SameWithAll }
{}

/// Without all keys and values compared, the answer is that two sets are the same only where their services, groups and boots agree.
pub fn sets_are_the_same_only_where_they_agree()
    ensures { SameOnlyWhereAgree }
{}
