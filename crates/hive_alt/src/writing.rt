//! The two stages of a copy, its base block and its bins sectors.

ghost use Rattle.std.specs.Prelude.{◌≡◌, ◌<◌, ◌≤◌, ◌+◌, ◌*◌, ◌/◌, true, Some, [], ◌∷◌, ◌++◌, length, OnOk};
ghost use Rattle.hive_model.specs.Limits.{most_bins};
ghost use Rattle.hive_model.specs.Base.{base_text};
ghost use Rattle.hive_model.specs.Image as book;
ghost use Rattle.hive_model.specs.Recovery.{bit, sector};
ghost use Rattle.nt_edge.specs.Book.{file_of};
ghost use Rattle.nt_edge.specs.Calls.{Synced, MakesUntil, writes_of};
ghost use Rattle.nt_edge.specs.Disk.{DiskState, now_of};
ghost use Rattle.nt_edge.specs.Frames.{Goes};
ghost use Rattle.nt_edge.specs.Crash.{EachCrash, AgreeOutside, Writing};
ghost use Rattle.hive_commit.specs.Growing.{HasMarkedBelow};
ghost use Rattle.hive_commit.specs.Stages.{HasMarked};
ghost use Rattle.hive_alt.specs.Calls.{copy_writes, copy_block_calls};
ghost use Rattle.hive_alt.specs.Copies.{copy_in, is_block, is_bin, BlockIsBeforeOr};
ghost use Rattle.hive_alt.specs.Twin.{copy_at};

use hive_commit::{put_sector, settle};
use hive_log::{copy_sector, has_bit};
use nt_edge::{Address, Disk, DiskStop, HiveFile};
use regf_base::{BaseBlock, base_bytes};

/// The bins sectors of a copy whose bit is on; they stay in flight.
fn write_copy_marked<D: Disk>(
    disk: &mut D,
    file: HiveFile,
    bitmap: &[u8],
    new: &[u8],
) -> Result<(), DiskStop>
    requires on { (D.state disk.old).on ≡ true }
    requires whole { 512 * (length new.now / 512) ≡ length new.now }
    requires few { length new.now ≤ most_bins }
    ensures made { MakesUntil (D.calls disk.old) (D.calls disk.new)
        (writes_of (copy_writes (file_of file) (bit bitmap.now) new.now)) result }
    ensures writing { D.tells ≡ true → (first : DiskState)
        → Writing (is_bin (file_of file) (length new.now) (bit bitmap.now)) first (D.state disk.old)
        → Writing (is_bin (file_of file) (length new.now) (bit bitmap.now)) first (D.state disk.new) }
    ensures written { D.tells ≡ true → OnOk result
        (HasMarkedBelow (copy_in (file_of file) (now_of (D.state disk.new))) (bit bitmap.now) new.now (length new.now / 512)) }
    ensures goes { Goes (D.state disk.old) (D.state disk.new) result }
{
    let mut sector = [0; 512];
    for i in 0..new.len() / 512 {
        if !has_bit(bitmap, i) {
            continue;
        }
        copy_sector(new, i, &mut sector);
        let at = Address {
            file,
            sector: 8 + i as u32,
        };
        put_sector(disk, at, &sector)?;
    }
    Ok(())
}

/// A stage: the bins sectors of a copy whose bit is on, and a sync.
pub(crate) fn write_copy_bins<D: Disk>(
    disk: &mut D,
    file: HiveFile,
    bitmap: &[u8],
    new: &[u8],
) -> Result<(), DiskStop>
    requires on { (D.state disk.old).on ≡ true }
    requires still { D.tells ≡ true → (D.state disk.old).flight ≡ [] }
    requires whole { 512 * (length new.now / 512) ≡ length new.now }
    requires few { length new.now ≤ most_bins }
    ensures made { MakesUntil (D.calls disk.old) (D.calls disk.new)
        (writes_of (copy_writes (file_of file) (bit bitmap.now) new.now) ++ Synced ∷ []) result }
    // Whatever a cut leaves has all else as it was.
    ensures crash { D.tells ≡ true → EachCrash (D.state disk.new)
        (AgreeOutside (is_bin (file_of file) (length new.now) (bit bitmap.now)) (D.state disk.old).held) }
    ensures still { D.tells ≡ true → OnOk result ((D.state disk.new).flight ≡ []) }
    ensures written { D.tells ≡ true → OnOk result (HasMarked (copy_in (file_of file) (D.state disk.new).held) (bit bitmap.now) new.now) }
    ensures goes { Goes (D.state disk.old) (D.state disk.new) result }
{
    write_copy_marked(disk, file, bitmap, new)?;
    settle(disk)
}

/// A stage: the base block of a copy, and a sync.
pub(crate) fn write_copy_block<D: Disk>(
    disk: &mut D,
    file: HiveFile,
    base: &BaseBlock,
) -> Result<(), DiskStop>
    requires on { (D.state disk.old).on ≡ true }
    requires still { D.tells ≡ true → (D.state disk.old).flight ≡ [] }
    ensures made { MakesUntil (D.calls disk.old) (D.calls disk.new) (copy_block_calls (file_of file) base.now) result }
    // Whatever a cut leaves has the old base block or this one, or none that can be read, and all else as it was.
    ensures crash { D.tells ≡ true → EachCrash (D.state disk.new) (AgreeOutside (is_block (file_of file)) (D.state disk.old).held) }
    ensures block { D.tells ≡ true → EachCrash (D.state disk.new) (BlockIsBeforeOr (file_of file) (D.state disk.old).held base.now) }
    ensures still { D.tells ≡ true → OnOk result ((D.state disk.new).flight ≡ []) }
    ensures written { D.tells ≡ true → OnOk result
        ((D.state disk.new).held (copy_at (file_of file) 0) ≡ Some (book.Bytes (base_text base.now))) }
    ensures goes { Goes (D.state disk.old) (D.state disk.new) result }
{
    let mut sector = [0; 512];
    base_bytes(base, &mut sector);
    let at = Address { file, sector: 0 };
    disk.write(at, &sector)?;
    disk.sync()
}
