//! What the report of a run says of its last start.

ghost use Rattle.why_laws.specs.why_laws.Reports.{LastStartIsReported};

/// What is known of the last start is what the report of the run says after its last line `start`: the number of the start, the set that it took,
/// its attempts with their outcomes in their order, the vital names that were missing, and the verdict. It is so whatever the
/// sequence number of the hive and whether its log is taken. Where there is no such line, the number is 0.
pub fn the_last_start_is_that_of_the_report()
    ensures { LastStartIsReported }
{}
