//! Which items an entry leads to.

ghost use Rattle.why_laws.specs.cycle_laws.Reached.{ItemsAreAllReached};

/// The items of an entry of a plan are exactly those that it leads to, over any number of steps: each step leads from an entry to where a lacking name,
/// or a member of a lacking group, leads that was unmet.
pub fn the_items_are_all_that_an_entry_leads_to()
    ensures { ItemsAreAllReached }
{}
