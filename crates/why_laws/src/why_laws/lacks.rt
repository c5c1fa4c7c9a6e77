//! What the lacks of an item have to do with its needs.

ghost use Rattle.why_laws.specs.why_laws.Lacks.{LacksAreUnmetNeeds};

/// The lacks of an entry in a phase are exactly its needs that were not met at the end of that phase: each lack is such a need, each such need has a
/// lack that folds to it, and no two lacking names, nor two lacking groups, fold to one. A name is met where its first attempt went well and was made
/// by then, a group where the first attempt that started a member of it was.
pub fn lacks_are_the_needs_that_were_not_met()
    ensures { LacksAreUnmetNeeds }
{}
