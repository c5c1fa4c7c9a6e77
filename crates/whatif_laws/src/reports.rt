//! What the reports of runs say of the same starts.

ghost use Rattle.whatif_laws.specs.Reports.{TellsAsRun, TellsOffAsRun, TakenIsHeld, EditIsNoLarger, TakesEditedSet, TellsEditedAsRun, LostAreMissing, JudgementIsWord, LostOfOffAreMissing, LostOfEditedAreMissing};

/// A hive that can hold the tree can hold the set that a start takes of it, as the laws of starts on a set ask.
pub fn a_start_takes_a_set_that_can_be_held()
    ensures { TakenIsHeld }
{}

/// Where a start takes a set, and the value `Start` of an entry in it is set to the DWORD 4, the hive takes no more bytes than before
/// (`no_larger`), and a start of it takes the same set with that entry off, on the same terms (`set`): it isn't refused.
pub fn a_start_takes_the_set_of_the_edited_hive()
    ensures no_larger { EditIsNoLarger }
    ensures set { TakesEditedSet }
{}

/// The lines `try` and `unmet` of the report of `boot` and `go`, perhaps after `fail NAME 1`, are those of what is reported of the start: the same
/// names with the same words, in one order, on a disk without cuts and faults (`failure`). Where the disk loads as a tree of which a start takes the
/// same set with the entry of a name off, they are those of what is reported of the start with it off (`off`); and so they are where it loads as the tree
/// in which the value `Start` of that entry, in the set that is taken, was set to the DWORD 4 (`edited`).
pub fn what_is_told_is_what_a_run_reports()
    ensures failure { TellsAsRun }
    ensures off { TellsOffAsRun }
    ensures edited { TellsEditedAsRun }
{}

/// What a block says by two reports: the lost are the names, other than the one that fails, that the plain report starts and the report of the failure doesn't
/// (`lost`), and the judgement is the word of the first attempt that fails in it (`judgement`); so are the lost of an entry off by the report of
/// such a tree (`off`) and by that of the edited one (`edited`).
pub fn a_block_is_what_two_reports_differ_in()
    ensures lost { LostAreMissing }
    ensures judgement { JudgementIsWord }
    ensures off { LostOfOffAreMissing }
    ensures edited { LostOfEditedAreMissing }
{}
