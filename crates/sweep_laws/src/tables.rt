//! The tables of reports are true.

ghost use Rattle.std.specs.Prelude.{◌≡◌, ◌<◌, ◌*◌, ◌^◌, ◌++◌, ℕ, Bool, List, length, true, false};
ghost use Rattle.hive_model.specs.Base.{Base, is_bins_size};
ghost use Rattle.hive_model.specs.Image.{Image, Log, IsFileOf};
ghost use Rattle.hive_model.specs.Recovery.{bit, sector};
ghost use Rattle.regf_base.specs.Fitting.{NumbersFit, TextsFit};
ghost use Rattle.hive_log.specs.Found.{Found};
ghost use Rattle.hive_commit.specs.Cuts.{IsChange};
ghost use Rattle.hive_commit.specs.Stages.{closed_of};
ghost use Rattle.sweep_text.specs.declared.sweep_text.logged.Logged.{Logged as LoggedModel};
ghost use Rattle.sweep_text.specs.sweep_text.Logged.{logged_of};
ghost use Rattle.sweep_text.specs.sweep_text.Report.{stages_by};
ghost use Rattle.sweep_laws.specs.Leaving.{recovery_writes, commit_writes, held_after, IsRecoveredBy, IsRecoveredBefore};
ghost use Rattle.sweep_laws.specs.Truth.{IsTrueOf};

/// The table that a report prints, by the log that the event was given and the log that it left, is true of what the event writes: of a commit, of
/// a recovery, and of a commit after a recovery.
pub fn the_table_of_a_report_is_true()
    ensures commit { (before : Image) (base : Base) (old new log : List ℕ) (root : ℕ) (bits : ℕ → Bool) (given : LoggedModel)
        → IsChange before base old new root bits
        → IsFileOf (held_after before (commit_writes base bits new root)) Log log
        → IsTrueOf (IsRecoveredBy base old (closed_of base new root) new) before
        (stages_by false true given (logged_of log)) (commit_writes base bits new root) }
    ensures recovery { (held : Image) (base : Base) (bitmap bins log : List ℕ) (written : LoggedModel)
        → Found held base bitmap bins → NumbersFit base → TextsFit base
        → IsFileOf held Log log
        → IsTrueOf (IsRecoveredBefore base bins) held (stages_by true false (logged_of log) written) (recovery_writes base (bit bitmap) bins) }
    ensures both { (held : Image) (base : Base) (bitmap old new log last : List ℕ) (root : ℕ) (bits : ℕ → Bool)
        → Found held base bitmap old → NumbersFit base → TextsFit base
        → is_bins_size (length new) ≡ true → root < 2 ^ 32
        → ((i : ℕ) → 512 * i < length new → bits i ≡ false → (512 * i < length old) × (sector new i ≡ sector old i))
        → IsFileOf held Log log
        → IsFileOf (held_after held (recovery_writes base (bit bitmap) old ++ commit_writes base bits new root)) Log last
        → IsTrueOf (IsRecoveredBy base old (closed_of base new root) new) held
        (stages_by true true (logged_of log) (logged_of last)) (recovery_writes base (bit bitmap) old ++ commit_writes base bits new root) }
{}
