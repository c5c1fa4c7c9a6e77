//! The laws. Each has its statement in `specs/Laws.antt`.

ghost use Rattle.check_laws.specs.Laws.{NothingFoundIsQuiet, OrderOnlyAdds, GoodNeedsAreProper, StuckHoldsItself, StuckIsGreatest, NoCycleNoneStuck};
ghost use Rattle.check_laws.specs.Unmet.{AboutIsUnmet, UnmetHasAbout, NoneAboutStartsWhole};
ghost use Rattle.check_laws.specs.Demand.{NoneAboutStartsOnDemand};
ghost use Rattle.check_laws.specs.Freed.{SameAreTaken, StuckAreUnmet, OnlyStuckAreRefused};

/// The number of `found` is 0 exactly where each line is `set`, `found 0` or `end`.
pub fn nothing_found_is_quiet()
    ensures quiet { NothingFoundIsQuiet }
{}

/// Without the order of groups and tags the lines are the same, but for those that tell of it.
pub fn the_order_only_adds_lines()
    ensures adds { OrderOnlyAdds }
{}

/// Each good need has a way, and its ways are entries. The stuck places have each a need all of whose ways are stuck, and no other set of places that has this reaches beyond them.
pub fn stuck_entries_are_the_greatest_set()
    ensures proper { GoodNeedsAreProper }
    ensures holds { StuckHoldsItself }
    ensures greatest { StuckIsGreatest }
{}

/// There is a cycle exactly where an entry is stuck.
pub fn no_cycle_is_said_where_none_is_stuck()
    ensures cycles { NoCycleNoneStuck }
{}

/// In a start of which each attempt goes well a taken entry is unmet where a line is about it: a need of it is wrong, or it is in a cycle
/// (`unmet`). Where an entry is unmet, a line is about a taken one (`told`); so without such a line no entry is unmet (`whole`).
pub fn a_start_leaves_out_whom_a_line_is_about()
    ensures unmet { AboutIsUnmet }
    ensures told { UnmetHasAbout }
    ensures whole { NoneAboutStartsWhole }
{}

/// Where no line is about any entry, each driver or service of Start 3 can be started after such a start, or it runs already.
pub fn what_no_line_is_about_starts_on_demand()
    ensures starts { NoneAboutStartsOnDemand }
{}

/// Of a set that has the entries of another one without their wrong needs, each entry has the stage that it had (`taken`), and exactly the stuck ones of those
/// that a phase takes are unmet (`stuck`). Of those that are started on demand only stuck ones are refused, and as unmet (`refused`).
pub fn without_wrong_needs_the_stuck_are_unmet()
    ensures taken { SameAreTaken }
    ensures stuck { StuckAreUnmet }
    ensures refused { OnlyStuckAreRefused }
{}
