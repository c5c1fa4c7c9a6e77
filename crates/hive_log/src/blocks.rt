//! Reading the base blocks and the bitmap of a disk. Nothing is written.

ghost use Rattle.std.specs.Prelude.{◌≡◌, ◌<◌, ◌≤◌, ◌*◌, true, Some, [], length, drop, IfOk};
ghost use Rattle.hive_model.specs.Limits.{most_bins};
ghost use Rattle.hive_model.specs.Asked.{log_at, primary_at};
ghost use Rattle.hive_model.specs.Base.{Base, is_bins_size, base_of};
ghost use Rattle.hive_model.specs.Recovery.{bit, rank, as_log_base, base_in, logged_in, front_in, bitmap_in};
ghost use Rattle.hive_model.specs.Recovery as book;
ghost use Rattle.hive_log.specs.Asked.{asked_sector, asked_bitmap, AsksFirst};
ghost use Rattle.hive_log.specs.Stops.{Reads, IsLookAt};

use crate::gathering::{read_log_run, read_log_sector, read_sector};
use crate::{LoadStop, bitmap_sectors, has_bit};
use nt_bytes::{Bytes, HiveFault, HiveFaultKind};
use nt_edge::{Address, Disk, HiveFile, Presence};
use regf_base::{BaseBlock, read_base};
use std::alloc::{AllocError, Global};

/// The primary's base block, sector 0 of its file, or none where that can't be read. Where it is absent the fault is
/// `NotRegf`, and else the first check that fails.
pub fn read_primary_block<D: Disk>(disk: &mut D) -> Result<Option<BaseBlock>, LoadStop>
    requires on { (D.state disk.old).on ≡ true }
    requires still { D.tells ≡ true → (D.state disk.old).flight ≡ [] }
    ensures block { D.tells ≡ true → Reads result (base_in (D.state disk.old).held) }
    ensures asked { AsksFirst (D.calls disk.old) (D.calls disk.new) D.tells
        (asked_sector (primary_at 0) (base_in (D.state disk.old).held)) result }
    ensures sized { (b : Base) → result ≡ Ok (Some b) → is_bins_size b.size ≡ true }
    ensures look { IsLookAt D.tells (D.state disk.old) (D.state disk.new) result }
{
    let mut sector = [0; 512];
    let at = Address {
        file: HiveFile::Primary,
        sector: 0,
    };
    match disk.read(at, &mut sector)? {
        Presence::Whole => Ok(Some(read_base(&sector, 0)?)),
        Presence::Unreadable => Ok(None),
        Presence::Absent => Err(LoadStop::Fault(HiveFault {
            kind: HiveFaultKind::NotRegf,
            at: 0,
        })),
    }
}

/// The log's base block. A fault of it is `LogBase` at the same byte.
pub(crate) fn read_log_block<D: Disk>(disk: &mut D) -> Result<BaseBlock, LoadStop>
    requires on { (D.state disk.old).on ≡ true }
    requires still { D.tells ≡ true → (D.state disk.old).flight ≡ [] }
    ensures block { D.tells ≡ true → Reads result (logged_in (D.state disk.old).held) }
    ensures asked { AsksFirst (D.calls disk.old) (D.calls disk.new) D.tells
        (asked_sector (log_at 0) (logged_in (D.state disk.old).held)) result }
    ensures sized { IfOk result (λ b. is_bins_size b.size ≡ true) }
    ensures look { IsLookAt D.tells (D.state disk.old) (D.state disk.new) result }
{
    let mut sector = [0; 512];
    let at = Address {
        file: HiveFile::Log,
        sector: 0,
    };
    let absent = HiveFault {
        kind: HiveFaultKind::LogAbsent,
        at: 0,
    };
    let unreadable = HiveFault {
        kind: HiveFaultKind::LogUnreadable,
        at: 0,
    };
    read_sector(disk, at, absent, unreadable, &mut sector)?;
    Ok(read_logged(&sector, 1)?)
}

/// The base block of a sector 0 in the log's file, of this file type: 1 for a log, 0 for what a caller keeps in its place.
/// A fault of it is `LogBase` at the same byte.
pub fn read_logged(sector: &[u8; 512], kind: u32) -> Result<BaseBlock, HiveFault>
    ensures { result ≡ as_log_base (base_of sector.now kind) }
{
    match read_base(sector, kind) {
        Ok(base) => Ok(base),
        Err(fault) => Err(HiveFault {
            kind: HiveFaultKind::LogBase,
            at: fault.at,
        }),
    }
}

/// The first sector of the bitmap.
fn read_bitmap_front<D: Disk>(alloc: Global, disk: &mut D) -> Result<Bytes, LoadStop>
    requires on { (D.state disk.old).on ≡ true }
    requires still { D.tells ≡ true → (D.state disk.old).flight ≡ [] }
    ensures front { D.tells ≡ true → Reads result (front_in (D.state disk.old).held) }
    ensures asked { AsksFirst (D.calls disk.old) (D.calls disk.new) D.tells
        (asked_sector (log_at 1) (front_in (D.state disk.old).held)) result }
    ensures long { IfOk result (λ b. length b ≡ 512) }
    ensures look { IsLookAt D.tells (D.state disk.old) (D.state disk.new) result }
{
    let mut sector = [0; 512];
    read_log_sector(disk, 1, &mut sector)?;
    if !sector.starts_with(b"DIRT") {
        return Err(LoadStop::Fault(HiveFault {
            kind: HiveFaultKind::LogDirt,
            at: 512,
        }));
    }
    Ok(Bytes::from_slice(alloc, &sector)?)
}

/// The whole bitmap with its signature, for bins data of this size in bytes.
pub(crate) fn read_bitmap<D: Disk>(
    alloc: Global,
    disk: &mut D,
    size: u32,
) -> Result<Bytes, LoadStop>
    requires on { (D.state disk.old).on ≡ true }
    requires still { D.tells ≡ true → (D.state disk.old).flight ≡ [] }
    requires few { size ≤ most_bins }
    ensures text { D.tells ≡ true → Reads result (bitmap_in (D.state disk.old).held size) }
    ensures asked { AsksFirst (D.calls disk.old) (D.calls disk.new) D.tells
        (asked_bitmap (D.state disk.old).held size) result }
    ensures long { IfOk result (λ b. length b ≡ 512 * book.bitmap_sectors size) }
    ensures look { IsLookAt D.tells (D.state disk.old) (D.state disk.new) result }
{
    let mut text = read_bitmap_front(alloc, disk)?;
    let more = read_log_run(alloc, disk, 2, bitmap_sectors(size as usize) as u32 - 1)?;
    text.append(more.as_slice())?;
    Ok(text)
}

/// How many of the first `count` bits are on.
pub(crate) fn count_bits(bitmap: &[u8], count: u32) -> u32
    ensures count { result ≡ rank (bit bitmap.now) count }
    ensures small { result ≤ count }
{
    let mut on = 0;
    for i in 0..count {
        if has_bit(bitmap, i as usize) {
            on += 1;
        }
    }
    on
}

/// The bits of a bitmap, after its signature.
pub(crate) fn bits_behind(alloc: Global, text: &[u8]) -> Result<Bytes, AllocError>
    requires { 4 ≤ length text.now }
    ensures { IfOk result (λ b. b ≡ drop 4 text.now) }
{
    Bytes::from_slice(alloc, &text[4..])
}

/// Whether the log's two numbers are one, and the primary's first one where its base block could be read.
pub fn goes_with(opened: &Option<BaseBlock>, logged: &BaseBlock) -> bool
    ensures { result ≡ book.goes_with opened.now logged.now }
{
    match opened {
        None => logged.first == logged.second,
        Some(base) => logged.first == base.first && logged.second == base.first,
    }
}

/// The log's base block, as that of a primary.
pub(crate) fn closed_block(logged: BaseBlock) -> BaseBlock
    ensures { result ≡ book.closed_by logged }
{
    BaseBlock { kind: 0, ..logged }
}
