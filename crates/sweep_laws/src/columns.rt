//! The n-th word of a column is that of the n-th call.

ghost use Rattle.std.specs.Prelude.{◌≡◌, ◌<◌, ◌^◌, ◌++◌, ℕ, Bool, List, [], length, map, true, false};
ghost use Rattle.hive_model.specs.Base.{Base, is_bins_size};
ghost use Rattle.hive_model.specs.Image.{Log, IsFileOf};
ghost use Rattle.hive_model.specs.Log.{dirty};
ghost use Rattle.hive_model.specs.Recovery.{bit};
ghost use Rattle.nt_edge.specs.Disk.{DiskState};
ghost use Rattle.nt_edge.specs.declared.disk.Keep.{Keep as KeepModel};
ghost use Rattle.regf_base.specs.Fitting.{NumbersFit, TextsFit};
ghost use Rattle.hive_log.specs.Found.{Found};
ghost use Rattle.hive_commit.specs.Calls.{change_calls, closing_calls};
ghost use Rattle.hive_commit.specs.Cuts.{IsChange};
ghost use Rattle.hive_commit.specs.Stages.{closed_of};
ghost use Rattle.sweep_text.specs.declared.sweep_text.logged.Logged.{Logged as LoggedModel};
ghost use Rattle.sweep_text.specs.declared.sweep_text.stages.Leaves.{Leaves as LeavesModel};
ghost use Rattle.sweep_text.specs.sweep_text.Calls.{four_text, four_fields};
ghost use Rattle.sweep_text.specs.sweep_text.Logged.{logged_of};
ghost use Rattle.sweep_text.specs.sweep_text.Report.{stages_by};
ghost use Rattle.sweep_text.specs.sweep_text.Stages.{Stage, calls_in};
ghost use Rattle.sweep_laws.specs.Columns.{column, after_calls, EachWordIsTrue, ways, printed, field_of};
ghost use Rattle.sweep_laws.specs.Leaving.{sync_word, IsRecoveredBy, IsRecoveredBefore};
ghost use Rattle.sweep_laws.specs.Turning.{TurnsOnce};

/// A column has a word for each call that the table counts (`counted`). Where a disk with nothing in flight does the calls of a commit (`commit`), the
/// writes and syncs of a recovery (`recovery`), or these and a commit's (`both`), one by one, and the power is cut in the n-th of them, what is
/// left is what the n-th word of the column says.
pub fn the_nth_word_is_that_of_the_nth_call()
    ensures counted { (keep : KeepModel) (stages : List Stage) → length (column keep stages) ≡ calls_in stages }
    ensures commit { (disk : DiskState) (base : Base) (old new log : List ℕ) (root : ℕ) (given : LoggedModel) → disk.flight ≡ []
        → IsChange disk.held base old new root (dirty old new)
        → IsFileOf (after_calls disk (change_calls base old new root)).held Log log
        → EachWordIsTrue (IsRecoveredBy base old (closed_of base new root) new) disk
        (stages_by false true given (logged_of log)) (change_calls base old new root) }
    ensures recovery { (disk : DiskState) (base : Base) (bitmap bins log : List ℕ) (written : LoggedModel) → disk.flight ≡ []
        → Found disk.held base bitmap bins → NumbersFit base → TextsFit base
        → IsFileOf disk.held Log log
        → EachWordIsTrue (IsRecoveredBefore base bins) disk
        (stages_by true false (logged_of log) written) (closing_calls base (bit bitmap) bins) }
    ensures both { (disk : DiskState) (base : Base) (bitmap old new log last : List ℕ) (root : ℕ) → disk.flight ≡ []
        → Found disk.held base bitmap old → NumbersFit base → TextsFit base → is_bins_size (length new) ≡ true → root < 2 ^ 32
        → IsFileOf disk.held Log log
        → IsFileOf (after_calls disk (closing_calls base (bit bitmap) old ++ change_calls base old new root)).held Log last
        → EachWordIsTrue (IsRecoveredBy base old (closed_of base new root) new) disk
        (stages_by true true (logged_of log) (logged_of last)) (closing_calls base (bit bitmap) old ++ change_calls base old new root) }
{}

/// Each column of the table of a report is `before` up to a call, and `after` from there on.
pub fn each_column_turns_once()
    ensures { (keep : KeepModel) (recovered committed : Bool) (recovery commit : LoggedModel)
        → TurnsOnce (column keep (stages_by recovered committed recovery commit)) }
{}

/// The lines of a write and of a sync print a word for each way, in the order of the columns: as text (`write`, `sync`) and as fields of an object
/// (`write_fields`, `sync_fields`).
pub fn a_line_prints_a_word_of_each_column()
    ensures write { (leaves : LeavesModel) → four_text leaves.written leaves.written ≡ printed (λ keep. leaves.written) }
    ensures sync { (leaves : LeavesModel) → four_text leaves.none leaves.others ≡ printed (sync_word leaves) }
    ensures write_fields { (leaves : LeavesModel) → four_fields leaves.written leaves.written ≡ map (field_of (λ keep. leaves.written)) ways }
    ensures sync_fields { (leaves : LeavesModel) → four_fields leaves.none leaves.others ≡ map (field_of (sync_word leaves)) ways }
{}
