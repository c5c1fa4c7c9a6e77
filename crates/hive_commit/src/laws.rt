//! What a cut in each stage of a change leaves, on any disk.

ghost use Rattle.std.specs.Prelude.{Bool, ℕ, List, length};
ghost use Rattle.hive_model.specs.Base.{Base};
ghost use Rattle.hive_model.specs.Image.{Image};
ghost use Rattle.hive_model.specs.Carries.{Carries, IsRecoveredAs};
ghost use Rattle.hive_model.specs.Log.{log_of};
ghost use Rattle.nt_edge.specs.Crash.{AgreeOutside};
ghost use Rattle.hive_commit.specs.Cuts.{IsChange, HasNewLog, HasNewBlock, HasNewBins, IsCutInBlock};
ghost use Rattle.hive_commit.specs.Stages.{in_log, is_marked, opened_of, closed_of, IsBeforeOrAfter};

/// Stage 1: whatever a cut leaves while the log is written is recovered as before.
pub fn a_cut_while_the_log_is_written_leaves_the_old()
    ensures { (before cut : Image) (base : Base) (old : List ℕ) → Carries before base old
        → AgreeOutside in_log before cut → IsRecoveredAs cut base old }
{}

/// Stage 2: whatever a cut leaves while the base block is opened is recovered as before or as after.
pub fn a_cut_while_the_base_block_is_opened_leaves_the_old_or_the_new()
    ensures { (before logged cut : Image) (base : Base) (old new : List ℕ) (root : ℕ) (bits : ℕ → Bool)
        → IsChange before base old new root bits
        → HasNewLog before logged (log_of bits new (closed_of base new root))
        → IsCutInBlock logged cut (opened_of base)
        → IsBeforeOrAfter base old (closed_of base new root) new cut }
{}

/// Stage 3: whatever a cut leaves while the bins sectors are written is recovered as after.
pub fn a_cut_while_the_bins_are_written_leaves_the_new()
    ensures { (before logged opened cut : Image) (base : Base) (old new : List ℕ) (root : ℕ) (bits : ℕ → Bool)
        → IsChange before base old new root bits
        → HasNewLog before logged (log_of bits new (closed_of base new root))
        → HasNewBlock logged opened (opened_of base)
        → AgreeOutside (is_marked (length new) bits) opened cut
        → IsRecoveredAs cut (closed_of base new root) new }
{}

/// Stage 4: whatever a cut leaves while the base block is closed is recovered as after.
pub fn a_cut_while_the_base_block_is_closed_leaves_the_new()
    ensures { (before logged opened moved cut : Image) (base : Base) (old new : List ℕ) (root : ℕ) (bits : ℕ → Bool)
        → IsChange before base old new root bits
        → HasNewLog before logged (log_of bits new (closed_of base new root))
        → HasNewBlock logged opened (opened_of base)
        → HasNewBins opened moved bits new
        → IsCutInBlock moved cut (closed_of base new root)
        → IsRecoveredAs cut (closed_of base new root) new }
{}
