//! Reading sectors of a disk, and runs of them. Nothing is written.

ghost use Rattle.std.specs.Prelude.{◌≡◌, ◌<◌, ◌≤◌, ◌+◌, ◌*◌, ℕ, true, Ok, [], ◌∷◌, length, IfOk};
ghost use Rattle.hive_model.specs.Asked.{log_at, bin_at, run_at, unmarked_at, one_by_one};
ghost use Rattle.hive_model.specs.Image as image;
ghost use Rattle.hive_model.specs.Recovery.{bytes_or, read_log, read_bin, gathered, sector, bit, rank};
ghost use Rattle.nt_edge.specs.Calls.{Makes, ReadAt};
ghost use Rattle.hive_log.specs.Asked.{AsksFirst};
ghost use Rattle.hive_log.specs.Mixing.{mixed};
ghost use Rattle.hive_log.specs.Stops.{Reads, ReadsAs, IsLookAt};

use crate::sectors::sector_of;
use crate::{LoadStop, has_bit};
use nt_bytes::{Bytes, HiveFault, HiveFaultKind};
use nt_edge::{Address, Disk, HiveFile, Presence};
use std::alloc::Global;

/// Reads a sector of 512 bytes as it was last written, or answers the one fault where it is absent, the other where it
/// can't be read.
pub fn read_sector<D: Disk>(
    disk: &mut D,
    at: Address,
    absent: HiveFault,
    unreadable: HiveFault,
    into: &mut [u8; 512],
) -> Result<(), LoadStop>
    requires on { (D.state disk.old).on ≡ true }
    requires still { D.tells ≡ true → (D.state disk.old).flight ≡ [] }
    ensures made { Makes (D.calls disk.old) (D.calls disk.new) (ReadAt at ∷ []) }
    ensures bytes { D.tells ≡ true → ReadsAs (λ _. into.new) result (bytes_or absent unreadable ((D.state disk.old).held at)) }
    ensures look { IsLookAt D.tells (D.state disk.old) (D.state disk.new) result }
{
    match disk.read(at, into)? {
        Presence::Whole => Ok(()),
        Presence::Absent => Err(LoadStop::Fault(absent)),
        Presence::Unreadable => Err(LoadStop::Fault(unreadable)),
    }
}

/// Reads a sector of the log, from number 1 on. Its faults name the byte in the log.
pub(crate) fn read_log_sector<D: Disk>(
    disk: &mut D,
    n: u32,
    into: &mut [u8; 512],
) -> Result<(), LoadStop>
    requires on { (D.state disk.old).on ≡ true }
    requires still { D.tells ≡ true → (D.state disk.old).flight ≡ [] }
    requires few { n < 100000 }
    ensures made { Makes (D.calls disk.old) (D.calls disk.new) (ReadAt (log_at n) ∷ []) }
    ensures bytes { D.tells ≡ true → ReadsAs (λ _. into.new) result (read_log (D.state disk.old).held n) }
    ensures look { IsLookAt D.tells (D.state disk.old) (D.state disk.new) result }
{
    let at = Address {
        file: HiveFile::Log,
        sector: n,
    };
    let absent = HiveFault {
        kind: HiveFaultKind::LogShort,
        at: 512 * n,
    };
    let unreadable = HiveFault {
        kind: HiveFaultKind::LogUnreadable,
        at: 512 * n,
    };
    read_sector(disk, at, absent, unreadable, into)
}

/// Reads a sector of the bins data in the primary. Where it is absent the file is too short, and the fault is
/// that of the size; where it can't be read the fault names the byte in the file.
fn read_bin_sector<D: Disk>(disk: &mut D, i: u32, into: &mut [u8; 512]) -> Result<(), LoadStop>
    requires on { (D.state disk.old).on ≡ true }
    requires still { D.tells ≡ true → (D.state disk.old).flight ≡ [] }
    requires few { i < 100000 }
    ensures made { Makes (D.calls disk.old) (D.calls disk.new) (ReadAt (bin_at i) ∷ []) }
    ensures bytes { D.tells ≡ true → ReadsAs (λ _. into.new) result (read_bin (D.state disk.old).held i) }
    ensures look { IsLookAt D.tells (D.state disk.old) (D.state disk.new) result }
{
    let at = Address {
        file: HiveFile::Primary,
        sector: 8 + i,
    };
    let absent = HiveFault {
        kind: HiveFaultKind::Size,
        at: 40,
    };
    let unreadable = HiveFault {
        kind: HiveFaultKind::Unreadable,
        at: 512 * (8 + i),
    };
    read_sector(disk, at, absent, unreadable, into)
}

/// The sectors of the log from one number on.
pub(crate) fn read_log_run<D: Disk>(
    alloc: Global,
    disk: &mut D,
    first: u32,
    count: u32,
) -> Result<Bytes, LoadStop>
    requires on { (D.state disk.old).on ≡ true }
    requires still { D.tells ≡ true → (D.state disk.old).flight ≡ [] }
    requires few { first + count < 100000 }
    ensures run { D.tells ≡ true → Reads result (gathered (read_log (D.state disk.old).held) first count) }
    ensures asked { AsksFirst (D.calls disk.old) (D.calls disk.new) D.tells
        (one_by_one (D.state disk.old).held (run_at image.Log first count)) result }
    ensures long { IfOk result (λ b. length b ≡ 512 * count) }
    ensures sectors { D.tells ≡ true → IfOk result (λ b. (k : ℕ) → k < count → read_log (D.state disk.old).held (first + k) ≡ Ok (sector b k)) }
    ensures look { IsLookAt D.tells (D.state disk.old) (D.state disk.new) result }
{
    let mut bytes = Bytes::new(alloc);
    let mut sector = [0; 512];
    for k in 0..count {
        read_log_sector(disk, first + k, &mut sector)?;
        bytes.append(&sector)?;
    }
    Ok(bytes)
}

/// The bins data: a sector whose bit is on is the next of the log's run, the others are read from the
/// primary.
pub(crate) fn read_bins<D: Disk>(
    alloc: Global,
    disk: &mut D,
    bitmap: &[u8],
    run: &[u8],
    count: u32,
) -> Result<Bytes, LoadStop>
    requires on { (D.state disk.old).on ≡ true }
    requires still { D.tells ≡ true → (D.state disk.old).flight ≡ [] }
    requires few { count ≤ 32768 }
    requires run_long { length run.now ≡ 512 * rank (bit bitmap.now) count }
    ensures bins { D.tells ≡ true → Reads result (gathered (mixed (D.state disk.old).held run.now (bit bitmap.now)) 0 count) }
    ensures asked { AsksFirst (D.calls disk.old) (D.calls disk.new) D.tells
        (one_by_one (D.state disk.old).held (unmarked_at (bit bitmap.now) count)) result }
    ensures long { IfOk result (λ b. length b ≡ 512 * count) }
    ensures sectors { D.tells ≡ true → IfOk result (λ b. (i : ℕ) → i < count → mixed (D.state disk.old).held run.now (bit bitmap.now) i ≡ Ok (sector b i)) }
    ensures look { IsLookAt D.tells (D.state disk.old) (D.state disk.new) result }
{
    let mut bytes = Bytes::new(alloc);
    let mut sector = [0; 512];
    let mut taken = 0;
    for i in 0..count {
        if has_bit(bitmap, i as usize) {
            bytes.append(sector_of(run, taken))?;
            taken += 1;
            continue;
        }
        read_bin_sector(disk, i, &mut sector)?;
        bytes.append(&sector)?;
    }
    Ok(bytes)
}
