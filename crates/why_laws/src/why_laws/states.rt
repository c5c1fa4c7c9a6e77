//! What a state says of an attempt.

ghost use Rattle.why_laws.specs.why_laws.States.{AttemptIsReported, ReportedIsSaid};

/// Where the state of a name reports an attempt, the name's first `try` line after the last line `start` of the run's report is that of its
/// number, and says how it went (`reported`). Where a phase has the name, and its first `try` line is one of those that were made when the last
/// such phase ended, the state reports that attempt (`said`).
pub fn a_state_tells_of_the_try_line()
    ensures reported { AttemptIsReported }
    ensures said { ReportedIsSaid }
{}
