//! The steps of the stages: writes that stay in flight, and the sync that settles them.

ghost use Rattle.std.specs.Prelude.{◌≡◌, ◌<◌, ◌≤◌, ◌+◌, ◌*◌, ◌/◌, true, Bool, ℕ, List, [], ◌∷◌, length, OnOk};
ghost use Rattle.hive_model.specs.Limits.{most_bins};
ghost use Rattle.hive_model.specs.Base.{base_text};
ghost use Rattle.hive_model.specs.Image as book;
ghost use Rattle.hive_model.specs.Image.{put};
ghost use Rattle.hive_model.specs.Recovery.{bit, sector, rank};
ghost use Rattle.hive_model.specs.Recovery as recovery;
ghost use Rattle.nt_edge.specs.Disk.{DiskState, now_of};
ghost use Rattle.nt_edge.specs.Frames.{Goes};
ghost use Rattle.nt_edge.specs.Calls.{Wrote, Synced, Makes, MakesUntil, writes_of};
ghost use Rattle.nt_edge.specs.Crash.{EachCrash, AgreeOutside, Writing};
ghost use Rattle.hive_commit.specs.Calls.{bins_writes};
ghost use Rattle.hive_commit.specs.Stages.{in_log, is_marked};
ghost use Rattle.hive_commit.specs.Growing.{HasBitmap, HasRun, HasFront, HasMarkedBelow, log_part};

use crate::marks::bits_off;
use hive_log::{bitmap_sector, bitmap_sectors, copy_sector, first_dirty, logged_block};
use nt_edge::{Address, Disk, DiskStop, HiveFile};
use regf_base::{BaseBlock, base_bytes};

/// Writes a sector, and leaves it in flight.
pub fn put_sector<D: Disk>(disk: &mut D, at: Address, bytes: &[u8; 512]) -> Result<(), DiskStop>
    requires on { (D.state disk.old).on ≡ true }
    ensures made { Makes (D.calls disk.old) (D.calls disk.new) (Wrote (at, bytes.now) ∷ []) }
    ensures writing { D.tells ≡ true → (p : book.Address → Bool) (first : DiskState) → p at ≡ true
        → Writing p first (D.state disk.old) → Writing p first (D.state disk.new) }
    ensures put { D.tells ≡ true → OnOk result (now_of (D.state disk.new) ≡ put (now_of (D.state disk.old)) (at, bytes.now)) }
    ensures goes { Goes (D.state disk.old) (D.state disk.new) result }
{
    disk.write(at, bytes)
}

/// Syncs. A cut then leaves what it may have left before, or all that was in flight.
pub fn settle<D: Disk>(disk: &mut D) -> Result<(), DiskStop>
    requires on { (D.state disk.old).on ≡ true }
    ensures made { Makes (D.calls disk.old) (D.calls disk.new) (Synced ∷ []) }
    ensures crash { D.tells ≡ true → (p : book.Address → Bool) (first : DiskState)
        → Writing p first (D.state disk.old) → EachCrash (D.state disk.new) (AgreeOutside p first.held) }
    ensures still { D.tells ≡ true → OnOk result ((D.state disk.new).flight ≡ []) }
    ensures held { D.tells ≡ true → OnOk result ((D.state disk.new).held ≡ now_of (D.state disk.old)) }
    ensures goes { Goes (D.state disk.old) (D.state disk.new) result }
{
    disk.sync()
}

/// The log's base block.
pub fn write_log_block<D: Disk>(disk: &mut D, base: &BaseBlock) -> Result<(), DiskStop>
    requires on { (D.state disk.old).on ≡ true }
    // A base block takes one sector.
    ensures long { length (base_text (record base.now { kind = 1 })) ≡ 512 }
    ensures made { (log : List ℕ) → sector log 0 ≡ base_text (record base.now { kind = 1 })
        → MakesUntil (D.calls disk.old) (D.calls disk.new) (writes_of (log_part log 0 1)) result }
    ensures writing { D.tells ≡ true → (first : DiskState) → Writing in_log first (D.state disk.old) → Writing in_log first (D.state disk.new) }
    ensures front { D.tells ≡ true → OnOk result ((log : List ℕ) → sector log 0 ≡ base_text (record base.now { kind = 1 })
        → HasFront (now_of (D.state disk.new)) log 1) }
    ensures goes { Goes (D.state disk.old) (D.state disk.new) result }
{
    let mut sector = [0; 512];
    base_bytes(&logged_block(base), &mut sector);
    let at = Address {
        file: HiveFile::Log,
        sector: 0,
    };
    put_sector(disk, at, &sector)
}

/// The log's bitmap, after its base block.
pub fn write_log_bitmap<D: Disk>(disk: &mut D, bitmap: &[u8], size: usize) -> Result<(), DiskStop>
    requires on { (D.state disk.old).on ≡ true }
    requires few { size ≤ most_bins }
    requires bits { size / 4096 ≤ length bitmap.now }
    ensures made { (log : List ℕ)
        → HasBitmap log (bit bitmap.now) size
        → MakesUntil (D.calls disk.old) (D.calls disk.new) (writes_of (log_part log 1 (recovery.bitmap_sectors size))) result }
    ensures writing { D.tells ≡ true → (first : DiskState) → Writing in_log first (D.state disk.old) → Writing in_log first (D.state disk.new) }
    ensures front { D.tells ≡ true → OnOk result ((log : List ℕ)
        → HasBitmap log (bit bitmap.now) size
        → HasFront (now_of (D.state disk.old)) log 1 → HasFront (now_of (D.state disk.new)) log (recovery.first_dirty size)) }
    ensures goes { Goes (D.state disk.old) (D.state disk.new) result }
{
    let mut sector = [0; 512];
    for k in 0..bitmap_sectors(size) {
        bitmap_sector(bitmap, size, k, &mut sector);
        let at = Address {
            file: HiveFile::Log,
            sector: 1 + k as u32,
        };
        put_sector(disk, at, &sector)?;
    }
    Ok(())
}

/// The log's run of sectors whose bit is on, after its bitmap.
pub fn write_log_run<D: Disk>(disk: &mut D, bitmap: &[u8], new: &[u8]) -> Result<(), DiskStop>
    requires on { (D.state disk.old).on ≡ true }
    requires whole { 512 * (length new.now / 512) ≡ length new.now }
    requires few { length new.now ≤ most_bins }
    ensures made { (log : List ℕ)
        → HasRun log (bit bitmap.now) new.now
        → MakesUntil (D.calls disk.old) (D.calls disk.new)
        (writes_of (log_part log (recovery.first_dirty (length new.now)) (rank (bit bitmap.now) (length new.now / 512)))) result }
    ensures writing { D.tells ≡ true → (first : DiskState) → Writing in_log first (D.state disk.old) → Writing in_log first (D.state disk.new) }
    ensures front { D.tells ≡ true → OnOk result ((log : List ℕ)
        → HasRun log (bit bitmap.now) new.now
        → HasFront (now_of (D.state disk.old)) log (recovery.first_dirty (length new.now))
        → HasFront (now_of (D.state disk.new)) log (recovery.first_dirty (length new.now) + rank (bit bitmap.now) (length new.now / 512))) }
    ensures goes { Goes (D.state disk.old) (D.state disk.new) result }
{
    let count = new.len() / 512;
    let mut sector = [0; 512];
    let mut number = first_dirty(new.len());
    let mut i = 0;
    'sectors: while i < count {
        let off = bits_off(bitmap, i, count);
        if off > 0 {
            i += off;
            continue;
        }
        copy_sector(new, i, &mut sector);
        let at = Address {
            file: HiveFile::Log,
            sector: number,
        };
        put_sector(disk, at, &sector)?;
        number += 1;
        i += 1;
    }
    Ok(())
}

/// The bins sectors of the primary whose bit is on.
pub fn write_marked<D: Disk>(disk: &mut D, bitmap: &[u8], new: &[u8]) -> Result<(), DiskStop>
    requires on { (D.state disk.old).on ≡ true }
    requires whole { 512 * (length new.now / 512) ≡ length new.now }
    requires few { length new.now ≤ most_bins }
    ensures made { MakesUntil (D.calls disk.old) (D.calls disk.new) (writes_of (bins_writes (bit bitmap.now) new.now)) result }
    ensures writing { D.tells ≡ true → (first : DiskState) → Writing (is_marked (length new.now) (bit bitmap.now)) first (D.state disk.old)
        → Writing (is_marked (length new.now) (bit bitmap.now)) first (D.state disk.new) }
    ensures written { D.tells ≡ true → OnOk result (HasMarkedBelow (now_of (D.state disk.new)) (bit bitmap.now) new.now (length new.now / 512)) }
    ensures goes { Goes (D.state disk.old) (D.state disk.new) result }
{
    let count = new.len() / 512;
    let mut sector = [0; 512];
    let mut i = 0;
    'sectors: while i < count {
        let off = bits_off(bitmap, i, count);
        if off > 0 {
            i += off;
            continue;
        }
        copy_sector(new, i, &mut sector);
        let at = Address {
            file: HiveFile::Primary,
            sector: 8 + i as u32,
        };
        put_sector(disk, at, &sector)?;
        i += 1;
    }
    Ok(())
}
