//! What a cut at each call of a recovery leaves.

ghost use Rattle.std.specs.Prelude.{◌≡◌, ◌<◌, ◌*◌, ◌^◌, ◌++◌, ℕ, Bool, List, length, true, false};
ghost use Rattle.hive_model.specs.Base.{Base, is_bins_size};
ghost use Rattle.hive_model.specs.Image.{Image};
ghost use Rattle.hive_model.specs.Recovery.{bit, sector};
ghost use Rattle.hive_model.specs.State.{HiveState};
ghost use Rattle.hive_log.specs.Found.{Found};
ghost use Rattle.regf_base.specs.Fitting.{NumbersFit, TextsFit};
ghost use Rattle.hive_commit.specs.Stages.{closed_of};
ghost use Rattle.hive_laws.specs.hive_laws.Cuts.{HoldsIn};
ghost use Rattle.sweep_text.specs.sweep_text.Stages.{recovery_stages, commit_stages};
ghost use Rattle.sweep_laws.specs.Leaving.{recovery_writes, commit_writes, EachCallLeaves, IsRecoveredBy, IsRecoveredBefore, LoadsBefore};

/// At each call of a recovery, and in each of the four ways, the table's word is `before`, and what a cut leaves is recovered as what the
/// recovery found. Where that holds a tree, it loads as this.
pub fn a_cut_in_a_recovery_leaves_what_the_table_says()
    ensures recovered { (held : Image) (closed : Base) (bitmap bins sectors : List ℕ)
        → Found held closed bitmap bins → NumbersFit closed → TextsFit closed
        → EachCallLeaves (IsRecoveredBefore closed bins) held (recovery_stages sectors) (recovery_writes closed (bit bitmap) bins) }
    ensures loads { (held : Image) (closed : Base) (bitmap bins sectors : List ℕ) (state : HiveState)
        → Found held closed bitmap bins → NumbersFit closed → TextsFit closed → HoldsIn closed bins state
        → EachCallLeaves (LoadsBefore state) held (recovery_stages sectors) (recovery_writes closed (bit bitmap) bins) }
{}

/// So it is where a recovery and a commit after it are one event: what a cut leaves in either is what the table says.
pub fn a_cut_in_a_recovery_and_a_commit_leaves_what_the_table_says()
    ensures { (held : Image) (base : Base) (bitmap old new : List ℕ) (root sectors_of_bits : ℕ) (bits : ℕ → Bool) (sectors more : List ℕ)
        → Found held base bitmap old → NumbersFit base → TextsFit base
        → is_bins_size (length new) ≡ true → root < 2 ^ 32
        → ((i : ℕ) → 512 * i < length new → bits i ≡ false → (512 * i < length old) × (sector new i ≡ sector old i))
        → EachCallLeaves (IsRecoveredBy base old (closed_of base new root) new) held
        (recovery_stages sectors ++ commit_stages sectors_of_bits more)
        (recovery_writes base (bit bitmap) old ++ commit_writes base bits new root) }
{}
