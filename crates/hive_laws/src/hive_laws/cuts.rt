//! What a start finds after a cut within a commit. Each law has the commit's own clause `crash` as its premise:
//! whatever a cut at this moment of the disk leaves is recovered as the base block and bins data from before, or as
//! those from after. Here the same is said of what they stand for.

ghost use Rattle.std.specs.Prelude.{ℕ, List, Option};
ghost use Rattle.hive_model.specs.Base.{Base};
ghost use Rattle.hive_model.specs.State.{HiveState};
ghost use Rattle.nt_edge.specs.Disk.{DiskState};
ghost use Rattle.nt_edge.specs.Crash.{EachCrash};
ghost use Rattle.hive_commit.specs.Stages.{closed_of, IsBeforeOrAfter, LoadsAsEither};
ghost use Rattle.hive_laws.specs.hive_laws.Cuts.{HoldsIn, LoadsAsNoThird, ReadsAsEither};

/// By whatever reading of base blocks and bins data, a cut within a commit leaves what it makes of those from before,
/// or of those from after.
pub fn a_cut_leaves_one_of_two_readings()
    ensures { (reading : Base → List ℕ → Option HiveState) (disk : DiskState)
        → (base : Base) (old new : List ℕ) (root : ℕ)
        → EachCrash disk (IsBeforeOrAfter base old (closed_of base new root) new)
        → EachCrash disk (ReadsAsEither reading base old (closed_of base new root) new) }
{}

/// Where a tree stood in the bins data from before and one is in those from after, a cut within a commit leaves a
/// hive that loads as the one state or the other, and as no third.
pub fn a_cut_leaves_one_of_two_trees()
    ensures loads { (disk : DiskState) (base : Base) (old new : List ℕ) (root : ℕ) (before after : HiveState)
        → HoldsIn base old before → HoldsIn (closed_of base new root) new after
        → EachCrash disk (IsBeforeOrAfter base old (closed_of base new root) new)
        → EachCrash disk (LoadsAsEither before after) }
    ensures no_third { (disk : DiskState) (base : Base) (old new : List ℕ) (root : ℕ) (before after : HiveState)
        → HoldsIn base old before → HoldsIn (closed_of base new root) new after
        → EachCrash disk (IsBeforeOrAfter base old (closed_of base new root) new)
        → EachCrash disk (LoadsAsNoThird before after) }
{}
