//! What `state unmet` has to do with the `unmet` lines.

ghost use Rattle.state_laws.specs.state_laws.Unmet.{PhasesReadOneSet, UnmetWhereReported};

/// Where a script edits nothing, the phases of its last start read one set (`set`). Where they do, and a hive can hold it, the state of a name is `unmet` exactly
/// where the last start has a line `unmet` of that name, as it folds (`line`).
pub fn a_name_is_unmet_where_a_line_says_so()
    ensures set { PhasesReadOneSet }
    ensures line { UnmetWhereReported }
{}
