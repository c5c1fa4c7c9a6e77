//! A commit by the pages of the old data that were kept.

ghost use Rattle.std.specs.Prelude.{◌≡◌, true, length, IfOk};
ghost use Rattle.hive_model.specs.Base.{is_bins_size};
ghost use Rattle.nt_edge.specs.Calls.{MakesUntil};
ghost use Rattle.nt_edge.specs.Crash.{EachCrash};
ghost use Rattle.cell_tables.specs.saved_pages.Overlay.{before, IsCovered};
ghost use Rattle.hive_commit.specs.Calls.{change_calls};
ghost use Rattle.hive_commit.specs.Commits.{IsCleanWith, IsCommitted};
ghost use Rattle.hive_commit.specs.Cuts.{IsCutOfCommit};
ghost use Rattle.hive_commit.specs.Stages.{closed_of, AreMarked};
ghost use Rattle.hive_commit.specs.Stops.{EndsCommit};

use crate::CommitStop;
use crate::change::write_change;
use crate::kept_marks::mark_kept;
use cell_tables::saved_pages::SavedPages;
use nt_edge::Disk;
use regf_base::BaseBlock;

/// The same as `commit`, of old data that are given by the pages of them that were kept: only these are compared.
pub fn commit_kept<D: Disk>(
    disk: &mut D,
    base: &BaseBlock,
    pages: &SavedPages,
    new: &[u8],
    root: u32,
    marks: &mut [u8; 4096],
) -> Result<BaseBlock, CommitStop>
    requires clean { IsCleanWith D.tells (D.state disk.old) base.now (before pages.now new.now) }
    requires saved { IsCovered pages.now (length new.now) }
    requires sized { is_bins_size (length new.now) ≡ true }
    ensures made { MakesUntil (D.calls disk.old) (D.calls disk.new)
        (change_calls base.now (before pages.now new.now) new.now root) result }
    ensures committed { IfOk result
        (IsCommitted D.tells (D.state disk.new) (before pages.now new.now) new.now (closed_of base.now new.now root)) }
    ensures cut { D.tells ≡ true → EachCrash (D.state disk.new)
        (IsCutOfCommit (D.state disk.old).held base.now (before pages.now new.now) new.now root) }
    ensures marked { AreMarked (before pages.now new.now) new.now marks.new }
    ensures ends { EndsCommit (D.state disk.old) (D.state disk.new) result }
{
    mark_kept(pages, new, marks);
    write_change(disk, base, marks, new, root)
}
