//! The stages of a commit. Each ends with a sync, and says what a cut at its end may leave.

ghost use Rattle.std.specs.Prelude.{◌≡◌, ◌<◌, ◌≤◌, ◌+◌, ◌*◌, ◌/◌, true, Some, [], ◌∷◌, ◌++◌, length, OnOk};
ghost use Rattle.hive_model.specs.Limits.{most_bins};
ghost use Rattle.hive_model.specs.Base.{IsBase, base_text};
ghost use Rattle.hive_model.specs.Image.{Bytes};
ghost use Rattle.hive_model.specs.Recovery.{primary_in, bit};
ghost use Rattle.hive_model.specs.Carries.{HasLog};
ghost use Rattle.hive_model.specs.Log.{log_of};
ghost use Rattle.nt_edge.specs.Frames.{Goes};
ghost use Rattle.nt_edge.specs.Calls.{Synced, MakesUntil, writes_of};
ghost use Rattle.nt_edge.specs.Crash.{EachCrash, AgreeOutside};
ghost use Rattle.hive_commit.specs.Calls.{log_writes, bins_writes, block_calls};
ghost use Rattle.hive_commit.specs.Stages.{in_log, is_base, is_marked, BlockIsBeforeOr, HasMarked};

use crate::parts::{settle, write_log_bitmap, write_log_block, write_log_run, write_marked};
use nt_edge::{Address, Disk, DiskStop, HiveFile};
use regf_base::{BaseBlock, base_bytes};

/// Stage 1: the log, with the sectors whose bit is on.
pub(crate) fn write_log<D: Disk>(
    disk: &mut D,
    base: &BaseBlock,
    bitmap: &[u8],
    new: &[u8],
) -> Result<(), DiskStop>
    requires on { (D.state disk.old).on ≡ true }
    requires still { D.tells ≡ true → (D.state disk.old).flight ≡ [] }
    requires pages { 4096 * (length new.now / 4096) ≡ length new.now }
    requires few { length new.now ≤ most_bins }
    requires bits { length new.now / 4096 ≤ length bitmap.now }
    requires fits { D.tells ≡ true → IsBase (record base.now { kind = 1 }) }
    ensures made { MakesUntil (D.calls disk.old) (D.calls disk.new)
        (writes_of (log_writes (log_of (bit bitmap.now) new.now base.now)) ++ Synced ∷ []) result }
    // Whatever a cut leaves has the primary as it was.
    ensures crash { D.tells ≡ true → EachCrash (D.state disk.new) (AgreeOutside in_log (D.state disk.old).held) }
    ensures still { D.tells ≡ true → OnOk result ((D.state disk.new).flight ≡ []) }
    ensures logged { D.tells ≡ true → OnOk result (HasLog (D.state disk.new).held (log_of (bit bitmap.now) new.now base.now)) }
    ensures goes { Goes (D.state disk.old) (D.state disk.new) result }
{
    write_log_block(disk, base)?;
    write_log_bitmap(disk, bitmap, new.len())?;
    write_log_run(disk, bitmap, new)?;
    settle(disk)
}

/// Stages 2 and 4: the primary's base block.
pub(crate) fn write_block<D: Disk>(disk: &mut D, base: &BaseBlock) -> Result<(), DiskStop>
    requires on { (D.state disk.old).on ≡ true }
    requires still { D.tells ≡ true → (D.state disk.old).flight ≡ [] }
    ensures made { MakesUntil (D.calls disk.old) (D.calls disk.new) (block_calls base.now) result }
    // Whatever a cut leaves has the old base block or this one, and all else as it was.
    ensures crash { D.tells ≡ true → EachCrash (D.state disk.new) (AgreeOutside is_base (D.state disk.old).held) }
    ensures block { D.tells ≡ true → EachCrash (D.state disk.new) (BlockIsBeforeOr (D.state disk.old).held base.now) }
    ensures still { D.tells ≡ true → OnOk result ((D.state disk.new).flight ≡ []) }
    ensures written { D.tells ≡ true → OnOk result (primary_in (D.state disk.new).held 0 ≡ Some (Bytes (base_text base.now))) }
    ensures goes { Goes (D.state disk.old) (D.state disk.new) result }
{
    let mut sector = [0; 512];
    base_bytes(base, &mut sector);
    let at = Address {
        file: HiveFile::Primary,
        sector: 0,
    };
    disk.write(at, &sector)?;
    disk.sync()
}

/// Stage 3: the bins sectors whose bit is on.
pub(crate) fn write_bins<D: Disk>(disk: &mut D, bitmap: &[u8], new: &[u8]) -> Result<(), DiskStop>
    requires on { (D.state disk.old).on ≡ true }
    requires still { D.tells ≡ true → (D.state disk.old).flight ≡ [] }
    requires whole { 512 * (length new.now / 512) ≡ length new.now }
    requires few { length new.now ≤ most_bins }
    ensures made { MakesUntil (D.calls disk.old) (D.calls disk.new)
        (writes_of (bins_writes (bit bitmap.now) new.now) ++ Synced ∷ []) result }
    // Whatever a cut leaves has all else as it was.
    ensures crash { D.tells ≡ true → EachCrash (D.state disk.new) (AgreeOutside (is_marked (length new.now) (bit bitmap.now)) (D.state disk.old).held) }
    ensures still { D.tells ≡ true → OnOk result ((D.state disk.new).flight ≡ []) }
    ensures written { D.tells ≡ true → OnOk result (HasMarked (D.state disk.new).held (bit bitmap.now) new.now) }
    ensures goes { Goes (D.state disk.old) (D.state disk.new) result }
{
    write_marked(disk, bitmap, new)?;
    settle(disk)
}
