//! A commit: the log, the base block opened, the sectors, the base block closed.

ghost use Rattle.std.specs.Prelude.{◌≡◌, ℕ, List, true, [], length, IfOk};
ghost use Rattle.hive_model.specs.Base.{is_bins_size};
ghost use Rattle.nt_edge.specs.Calls.{MakesUntil};
ghost use Rattle.nt_edge.specs.Crash.{EachCrash};
ghost use Rattle.hive_commit.specs.Calls.{change_calls};
ghost use Rattle.hive_commit.specs.Commits.{IsCleanWith, IsCommitted};
ghost use Rattle.hive_commit.specs.Cuts.{IsCutOfCommit};
ghost use Rattle.hive_commit.specs.Stages.{closed_of, AreMarked, IsMarkedChange};
ghost use Rattle.hive_commit.specs.Stops.{EndsCommit};

use crate::CommitStop;
use crate::blocks::{closed_block, opened_block};
use crate::stages::{write_bins, write_block, write_log};
use hive_log::mark_dirty;
use nt_edge::Disk;
use regf_base::{BaseBlock, numbers_fit, texts_fit};

/// Puts new bins data with their root in the place of old ones. The disk is on, has nothing in flight and
/// carries the base block and the old data; the size of the new data in bytes is a multiple of 4096 from
/// 4096 to 16,777,216. A refusal is the disk's own, and leaves the old data or the new.
pub fn commit<D: Disk>(
    disk: &mut D,
    base: &BaseBlock,
    old: &[u8],
    new: &[u8],
    root: u32,
    marks: &mut [u8; 4096],
) -> Result<BaseBlock, CommitStop>
    requires clean { IsCleanWith D.tells (D.state disk.old) base.now old.now }
    requires sized { is_bins_size (length new.now) ≡ true }
    // It makes these calls and no other; after a refusal a prefix of them.
    ensures made { MakesUntil (D.calls disk.old) (D.calls disk.new) (change_calls base.now old.now new.now root) result }
    // At Ok the answer is the base block from before with the next number twice, the new size and the new
    // root, and the disk is clean with it and the new bins data; its log has the sectors that differ, and no other.
    ensures committed { IfOk result (IsCommitted D.tells (D.state disk.new) old.now new.now (closed_of base.now new.now root)) }
    // At every exit a cut leaves what is recovered as before or as after, be sectors in flight torn or not, and all else as it was.
    ensures cut { D.tells ≡ true → EachCrash (D.state disk.new) (IsCutOfCommit (D.state disk.old).held base.now old.now new.now root) }
    // Whatever the answer, the bits of the sectors that differ are on in the marks, and the others are off.
    ensures marked { AreMarked old.now new.now marks.new }
    // Each refusal has its cause, and there is no other.
    ensures ends { EndsCommit (D.state disk.old) (D.state disk.new) result }
{
    mark_dirty(old, new, marks);
    write_change(disk, base, marks, new, root)
}

/// The four stages of a commit, by marks that tell which sectors differ: of whatever old data they are the marks.
pub(crate) fn write_change<D: Disk>(
    disk: &mut D,
    base: &BaseBlock,
    marks: &[u8; 4096],
    new: &[u8],
    root: u32,
) -> Result<BaseBlock, CommitStop>
    requires on { (D.state disk.old).on ≡ true }
    requires still { D.tells ≡ true → (D.state disk.old).flight ≡ [] }
    requires change { D.tells ≡ true → IsMarkedChange (D.state disk.old).held base.now new.now marks.now }
    requires sized { is_bins_size (length new.now) ≡ true }
    ensures made { (old : List ℕ) → AreMarked old new.now marks.now
        → MakesUntil (D.calls disk.old) (D.calls disk.new) (change_calls base.now old new.now root) result }
    ensures committed { (old : List ℕ) → AreMarked old new.now marks.now
        → IfOk result (IsCommitted D.tells (D.state disk.new) old new.now (closed_of base.now new.now root)) }
    ensures cut { D.tells ≡ true → (change : IsMarkedChange (D.state disk.old).held base.now new.now marks.now)
        → EachCrash (D.state disk.new) (IsCutOfCommit (D.state disk.old).held base.now change.old new.now root) }
    ensures ends { EndsCommit (D.state disk.old) (D.state disk.new) result }
{
    numbers_fit(base);
    texts_fit(base);
    let closed = closed_block(base, new.len() as u32, root);
    write_log(disk, &closed, marks, new)?;
    write_block(disk, &opened_block(base))?;
    write_bins(disk, marks, new)?;
    write_block(disk, &closed)?;
    Ok(closed)
}
