//! The hive that a disk holds, as one that loads without its log.

ghost use Rattle.std.specs.Prelude.{◌≡◌, true, false, [], None, Ok, IfOk, IfErr, OnOk};
ghost use Rattle.nt_edge.specs.Disk.{new_state};
ghost use Rattle.nt_edge.specs.declared.host.HostStop.TheVariants.{Memory};
ghost use Rattle.command_parts.specs.command_parts.Placed.{image_in};
ghost use Rattle.ntboot.specs.Between.{HoldsFiles, HoldsPrimary, IsAwakeWith, IsCleanIn, StandsBetween};

use command_parts::command_parts::{HiveFiles, place};
use hive_commit::recover;
use hive_log::LoadStop;
use mem_edge::MemDisk;
use nt_bytes::Bytes;
use nt_edge::{Bench, DiskStop, HiveFile, HostStop};
use std::alloc::Global;

/// The two files that a disk holds, which is off.
fn files_of<B: Bench>(disk: &mut B) -> Result<HiveFiles, DiskStop>
    requires off { (B.state disk.old).on ≡ false }
    ensures { IfOk result (HoldsFiles (B.state disk.old)) }
{
    let primary = disk.take(HiveFile::Primary)?;
    let log = disk.take(HiveFile::Log)?;
    Ok(HiveFiles {
        primary,
        log: Some(log),
    })
}

/// The primary that a disk holds. The disk is turned off.
fn primary_of<B: Bench>(disk: &mut B) -> Result<Option<Bytes>, DiskStop>
    ensures { IfOk result (HoldsPrimary (B.state disk.old)) }
{
    disk.power_off();
    let hive = disk.take(HiveFile::Primary)?;
    Ok(Some(hive))
}

/// The primary of a disk that is on, recovered; none where that cannot be done. No stop was ordered on the disk, so that only lack of memory
/// stops it.
fn recovered_primary<B: Bench>(alloc: Global, disk: &mut B) -> Result<Option<Bytes>, DiskStop>
    requires on { (B.state disk.old).on ≡ true }
    requires still { (B.state disk.old).flight ≡ [] }
    ensures { B.tells ≡ true → IfOk result (IsCleanIn (B.state disk.old).held) }
{
    match recover(alloc, disk) {
        Ok(_found) => primary_of(disk),
        Err(LoadStop::Fault(_)) => Ok(None),
        Err(_) => Err(DiskStop::Memory),
    }
}

/// Places two files on a new disk, and turns it on.
fn wake<B: Bench>(files: &HiveFiles, disk: &mut B) -> Result<(), DiskStop>
    requires fresh { B.state disk.old ≡ new_state }
    ensures { OnOk result (IsAwakeWith files.now (B.state disk.new)) }
{
    place(files, disk)?;
    disk.power_on()
}

/// The hive of two files, as one that needs no log; none where they cannot be recovered.
fn clean_primary(alloc: Global, files: &HiveFiles) -> Result<Option<Bytes>, DiskStop>
    ensures { IfOk result (IsCleanIn (image_in files.now)) }
{
    let mut disk = MemDisk::new(alloc);
    wake(files, &mut disk)?;
    recovered_primary(alloc, &mut disk)
}

/// The hive that a disk holds, as one that needs no log; none where its two files cannot be recovered. The disk is turned off.
fn clean_hive<B: Bench>(alloc: Global, disk: &mut B) -> Result<Option<Bytes>, DiskStop>
    ensures { IfOk result (StandsBetween (B.state disk.old)) }
{
    disk.power_off();
    let files = files_of(disk)?;
    clean_primary(alloc, &files)
}

/// The hive that is to stand between two that need their logs, where one is wanted: the one that the disk holds, as one that needs none.
pub fn hive_between<B: Bench>(
    alloc: Global,
    wanted: bool,
    disk: &mut B,
) -> Result<Option<Bytes>, HostStop>
    ensures unwanted { wanted ≡ false → result ≡ Ok None }
    ensures clean { wanted ≡ true → IfOk result (StandsBetween (B.state disk.old)) }
    ensures memory { IfErr result (λ stop. stop ≡ Memory) }
{
    if !wanted {
        return Ok(None);
    }
    match clean_hive(alloc, disk) {
        Ok(hive) => Ok(hive),
        Err(_) => Err(HostStop::Memory),
    }
}
