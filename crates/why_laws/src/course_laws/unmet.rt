//! What `state unmet` has to do with the report of a run.

ghost use Rattle.why_laws.specs.course_laws.Unmet.{UnmetIsReported};

/// Where the state of a name is `unmet`, the report of the run has, after its last line `start`, a line `unmet` of that name, as it folds; whatever the
/// sequence number of the hive, and whether its log is taken.
pub fn an_unmet_name_has_an_unmet_line()
    ensures { UnmetIsReported }
{}
