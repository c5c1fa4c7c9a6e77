//! How an entry's place in a plan counts the entries that are before it.

ghost use Rattle.why_laws.specs.why_laws.Places.{RanksAreOfPlan, RanksAreInOrder, PlaceIsCount};

/// The entries of a plan stand as their ranks do (`plan`), of which each is before each later one (`order`). As many are before the entry at a place
/// as that says, counted from 0: they are those that stand ahead of it, and all that follow are after it (`count`). So its neighbours are the
/// nearest before it and after it.
pub fn a_place_counts_those_before_it()
    ensures plan { RanksAreOfPlan }
    ensures order { RanksAreInOrder }
    ensures count { PlaceIsCount }
{}
