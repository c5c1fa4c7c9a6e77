//! The writing half of a recovery.

ghost use Rattle.std.specs.Prelude.{◌≡◌, ◌≤◌, ◌*◌, ◌/◌, true, length, OnOk};
ghost use Rattle.hive_model.specs.Limits.{most_bins};
ghost use Rattle.hive_model.specs.Recovery.{bit};
ghost use Rattle.nt_edge.specs.Frames.{Goes};
ghost use Rattle.nt_edge.specs.Calls.{MakesUntil};
ghost use Rattle.nt_edge.specs.Crash.{EachCrash};
ghost use Rattle.hive_commit.specs.Calls.{closing_calls};
ghost use Rattle.hive_commit.specs.Commits.{IsCleanWith, IsFoundOn};
ghost use Rattle.hive_commit.specs.Cuts.{IsCutOfRestoring};

use crate::stages::{write_bins, write_block};
use nt_edge::{Disk, DiskStop};
use regf_base::{BaseBlock, numbers_fit, texts_fit};

/// Writes what a reading found into a dirty primary: the sectors that the log gave, and then the base block.
/// Whatever a cut leaves is recovered as the same. The log is not written. The disk is on and has nothing in
/// flight; the base block, the bits and the bins data are those that `hive_log::read_recovered` gave of this
/// disk, with `dirty`. So a caller that has read recovers without reading again.
pub fn restore<D: Disk>(
    disk: &mut D,
    closed: &BaseBlock,
    bitmap: &[u8],
    bins: &[u8],
) -> Result<(), DiskStop>
    requires found { IsFoundOn D.tells (D.state disk.old) closed.now bitmap.now bins.now }
    requires whole { 512 * (length bins.now / 512) ≡ length bins.now }
    requires few { length bins.now ≤ most_bins }
    ensures made { MakesUntil (D.calls disk.old) (D.calls disk.new) (closing_calls closed.now (bit bitmap.now) bins.now) result }
    ensures clean { OnOk result (IsCleanWith D.tells (D.state disk.new) closed.now bins.now) }
    // Whatever a cut leaves is recovered as the same, with the log and the rest of the primary as they were.
    ensures cut { D.tells ≡ true → EachCrash (D.state disk.new) (IsCutOfRestoring (D.state disk.old).held closed.now bins.now) }
    ensures goes { Goes (D.state disk.old) (D.state disk.new) result }
{
    numbers_fit(closed);
    texts_fit(closed);
    write_bins(disk, bitmap, bins)?;
    write_block(disk, closed)?;
    Ok(())
}
