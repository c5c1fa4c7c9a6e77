//! Who was left at the end of a phase, and what is reported of it.

ghost use Rattle.why_laws.specs.course_laws.Left.{ItemsAreLeft, LeftHasLack};

/// In what a script leaves of its last start, each entry of a plan that was not attempted by the end of its phase, which ended, has a lack there: a name
/// that was not met, or a group. A hive must be able to hold the sets that the phases read.
pub fn whoever_was_left_lacks_something()
    ensures { LeftHasLack }
{}

/// Each of the items of a name that is unmet is an entry of a plan that was not attempted by the end of its phase, which ended.
pub fn each_item_was_left_at_the_end_of_its_phase()
    ensures { ItemsAreLeft }
{}
