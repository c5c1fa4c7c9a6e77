//! When there is no cycle.

ghost use Rattle.why_laws.specs.cycle_laws.Freed.{NoCycleWhereFreed};

/// Of an entry of a plan and all that it leads to there is no `cycle` line exactly where the entry is freed: where it is in each set of entries that has
/// each of these all of whose open lacks lead to the set.
pub fn no_cycle_where_the_lacks_can_be_met()
    ensures { NoCycleWhereFreed }
{}
