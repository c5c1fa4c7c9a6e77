//! The laws. Each has its statement in `specs/Laws.antt`.

ghost use Rattle.diff_laws.specs.diff_laws.Laws.{ServicesAgree, GroupsAgree, BootsAgree, SetsAgree};
ghost use Rattle.diff_laws.specs.diff_laws.All.{AllAddsLines};
ghost use Rattle.diff_laws.specs.diff_laws.Own.{OwnServices, OwnGroups, OwnTree};

/// There is no line on the services exactly where both sets have services of the same names in the same order, and each has the same in every
/// field as the other set's service of its name.
pub fn services_have_no_line_where_they_agree()
    ensures services { ServicesAgree }
{}

/// There is no line on groups exactly where both sets list the same names, item by item, each group of the one is a group of the other, and its
/// tags are the same.
pub fn groups_have_no_line_where_they_agree()
    ensures groups { GroupsAgree }
{}

/// The two boots are reported as the same exactly where they attempt the same names in the same order, each in the same phase, and leave the same
/// names unmet.
pub fn boots_are_the_same_where_they_agree()
    ensures boots { BootsAgree }
{}

/// Where services, groups and boots agree, the lines are `sets`, `starts same`, `same` and `end`.
pub fn sets_that_agree_are_the_same()
    ensures same { SetsAgree }
{}

/// A set compared with itself has no line on services (`services`) and none on groups (`groups`), and where all keys and values are compared none on
/// those (`tree`). Each key of the set must be one that a hive can hold.
pub fn a_set_is_like_itself()
    ensures services { OwnServices }
    ensures groups { OwnGroups }
    ensures tree { OwnTree }
{}

/// Up to the last two, the lines with all keys and values compared are those without it, and more after them.
pub fn all_only_adds_lines()
    ensures adds { AllAddsLines }
{}
