//! Who is lost where an entry fails or is off.

ghost use Rattle.whatif_laws.specs.Starts.{StartsNoOther, FailBlockSaysUnmet, LostOfFailIsUnmet, LostOfFailLeans, LostOfOffIsUnmetOrUntold, OffIsNoBetter, FailBlockIsNew, OffBlockIsNew};

/// A start in which the first attempt of a name fails, or with the entry of a name off, starts no name that the plain start doesn't.
pub fn no_failure_starts_another()
    ensures no_other { StartsNoOther }
{}

/// Where the start goes on after a failure, each of the lost is unmet there (`unmet`), which the block says of each (`block`), and leans on the name
/// that failed (`leans`).
pub fn the_lost_of_a_failure_are_unmet_and_lean()
    ensures unmet { LostOfFailIsUnmet }
    ensures block { FailBlockSaysUnmet }
    ensures leans { LostOfFailLeans }
{}

/// The lost of a failure after which the start goes on are among the lost of the same entry off (`off`). Each of these is unmet there, or nothing
/// is reported of it, as no phase takes it (`untold`).
pub fn an_entry_off_is_no_better_than_its_failure()
    ensures off { OffIsNoBetter }
    ensures untold { LostOfOffIsUnmetOrUntold }
{}

/// The names that a block says to be unmet are those that are unmet in that start and not in the plain one: where an entry fails that the
/// plain start starts, and the start goes on (`fail`), and where one is off (`off`).
pub fn the_unmet_of_a_block_are_newly_unmet()
    ensures fail { FailBlockIsNew }
    ensures off { OffBlockIsNew }
{}
