//! What the `cycle` lines have to do with needs.

ghost use Rattle.why_laws.specs.cycle_laws.Cycles.{EachNeedsTheNext};

/// The `cycle` lines of some entries are those of entries with an `unmet` line there, of which each needs the next one, and the last one the first: it
/// lacked, at the end of its phase, a name that folds to that of the next one, or a group that has a member whose name does; and that name was unmet then.
pub fn each_entry_of_a_cycle_needs_the_next()
    ensures { EachNeedsTheNext }
{}
