//! When an entry has a lack.

ghost use Rattle.why_laws.specs.cycle_laws.Lacks.{LacksNothingWhereMet};

/// No lack of an entry has a line exactly where each of its needs was met by the end of the phase. A name is met where its first attempt went well and was
/// made by then, a group where the first attempt that started a member of it was.
pub fn an_entry_lacks_nothing_where_its_needs_were_met()
    ensures { LacksNothingWhereMet }
{}
