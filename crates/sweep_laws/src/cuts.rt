//! What a cut at each call leaves.

ghost use Rattle.std.specs.Prelude.{◌≡◌, ℕ, Bool, List};
ghost use Rattle.hive_model.specs.Base.{Base, base_text};
ghost use Rattle.hive_model.specs.Image.{Image, IsLeftBy};
ghost use Rattle.hive_model.specs.Asked.{primary_at};
ghost use Rattle.hive_model.specs.Log.{dirty, log_of};
ghost use Rattle.hive_model.specs.Recovery.{primary_in};
ghost use Rattle.hive_model.specs.Carries.{IsRecoveredAs};
ghost use Rattle.hive_model.specs.State.{HiveState};
ghost use Rattle.nt_edge.specs.Crash.{AgreeOutside};
ghost use Rattle.hive_commit.specs.Calls.{change_calls, closing_calls};
ghost use Rattle.hive_commit.specs.Cuts.{IsChange, HasNewLog};
ghost use Rattle.hive_commit.specs.Stages.{is_base, opened_of, closed_of};
ghost use Rattle.hive_laws.specs.hive_laws.Cuts.{HoldsIn};
ghost use Rattle.sweep_text.specs.sweep_text.Stages.{commit_stages};
ghost use Rattle.sweep_laws.specs.Leaving.{recovery_writes, commit_writes, calls_of, EachCallLeaves, IsRecoveredBy, LoadsBy, LoadsNoOther};

/// The writes of these stages, with a sync after those of each, are the calls of a commit, and of a recovery.
pub fn the_stages_are_the_calls()
    ensures commit { (base : Base) (old new : List ℕ) (root : ℕ) → change_calls base old new root ≡ calls_of (commit_writes base (dirty old new) new root) }
    ensures recovery { (closed : Base) (bits : ℕ → Bool) (bins : List ℕ) → closing_calls closed bits bins ≡ calls_of (recovery_writes closed bits bins) }
{}

/// Whatever a cut leaves while the base block is opened is recovered as before where its sector is as it was, and as after where it has the
/// opened base block or can't be read.
pub fn a_cut_while_the_base_block_is_opened_leaves_what_its_sector_says()
    ensures before { (before logged cut : Image) (base : Base) (old new : List ℕ) (root : ℕ) (bits : ℕ → Bool)
        → IsChange before base old new root bits → HasNewLog before logged (log_of bits new (closed_of base new root))
        → AgreeOutside is_base logged cut → primary_in cut 0 ≡ primary_in logged 0
        → IsRecoveredAs cut base old }
    ensures after { (before logged cut : Image) (base : Base) (old new : List ℕ) (root : ℕ) (bits : ℕ → Bool)
        → IsChange before base old new root bits → HasNewLog before logged (log_of bits new (closed_of base new root))
        → AgreeOutside is_base logged cut → IsLeftBy (primary_at 0, base_text (opened_of base)) (primary_in cut 0)
        → IsRecoveredAs cut (closed_of base new root) new }
{}

/// At each call of a commit, and in each of the four ways, what a cut leaves is recovered as before where the table's word is `before`, and
/// as after where it is `after`.
pub fn a_cut_leaves_what_the_table_says()
    ensures { (before : Image) (base : Base) (old new : List ℕ) (root bitmap : ℕ) (bits : ℕ → Bool) (sectors : List ℕ)
        → IsChange before base old new root bits
        → EachCallLeaves (IsRecoveredBy base old (closed_of base new root) new) before
        (commit_stages bitmap sectors) (commit_writes base bits new root) }
{}

/// Where a tree stood in the data from before and one is in those from after, what a cut leaves loads as the state that the word names, and as no
/// other: as that from before where it is `before`, and as that from after where it is `after`.
pub fn a_word_names_the_tree()
    ensures loads { (before : Image) (base : Base) (old new : List ℕ) (root bitmap : ℕ) (bits : ℕ → Bool) (sectors : List ℕ) (first last : HiveState)
        → IsChange before base old new root bits
        → HoldsIn base old first → HoldsIn (closed_of base new root) new last
        → EachCallLeaves (LoadsBy first last) before (commit_stages bitmap sectors) (commit_writes base bits new root) }
    ensures no_other { (before : Image) (base : Base) (old new : List ℕ) (root bitmap : ℕ) (bits : ℕ → Bool) (sectors : List ℕ) (first last : HiveState)
        → IsChange before base old new root bits
        → HoldsIn base old first → HoldsIn (closed_of base new root) new last
        → EachCallLeaves (LoadsNoOther first last) before (commit_stages bitmap sectors) (commit_writes base bits new root) }
{}
