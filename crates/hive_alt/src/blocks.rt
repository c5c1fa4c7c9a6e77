//! Reading the second copy's base block, and comparing the second copy. Nothing is written.

ghost use Rattle.std.specs.Prelude.{◌≡◌, ◌≤◌, ◌+◌, ◌*◌, ◌/◌, true, [], length, IfOk};
ghost use Rattle.hive_model.specs.Limits.{most_bins};
ghost use Rattle.hive_model.specs.Base.{is_bins_size, base_of};
ghost use Rattle.hive_model.specs.Recovery.{log_in, as_log_base, sector};
ghost use Rattle.hive_log.specs.Stops.{Reads, IsLookAt};
ghost use Rattle.hive_alt.specs.Schemes.{OnlyReads};
ghost use Rattle.hive_alt.specs.Twin as twin;
ghost use Rattle.hive_alt.specs.Twin.{second_in, has_fields, has_bytes, second_has, is_second};

use hive_log::{LoadStop, copy_sector, read_logged, read_sector};
use nt_bytes::{HiveFault, HiveFaultKind};
use nt_edge::{Address, Disk, HiveFile, Presence};
use regf_base::{BaseBlock, read_base};

/// The second copy's base block. A fault of it is `LogBase` at the same byte.
pub(crate) fn read_second_block<D: Disk>(disk: &mut D) -> Result<BaseBlock, LoadStop>
    requires on { (D.state disk.old).on ≡ true }
    requires still { D.tells ≡ true → (D.state disk.old).flight ≡ [] }
    ensures asked { OnlyReads (D.calls disk.old) (D.calls disk.new) }
    ensures block { D.tells ≡ true → Reads result (second_in (D.state disk.old).held) }
    ensures sized { IfOk result (λ b. is_bins_size b.size ≡ true) }
    ensures look { IsLookAt D.tells (D.state disk.old) (D.state disk.new) result }
{
    let mut sector = [0; 512];
    let at = Address {
        file: HiveFile::Log,
        sector: 0,
    };
    let absent = HiveFault {
        kind: HiveFaultKind::LogAbsent,
        at: 0,
    };
    let unreadable = HiveFault {
        kind: HiveFaultKind::LogUnreadable,
        at: 0,
    };
    read_sector(disk, at, absent, unreadable, &mut sector)?;
    Ok(read_logged(&sector, 0)?)
}

/// Whether two base blocks have the same fields.
fn same_fields(a: &BaseBlock, b: &BaseBlock) -> bool
    ensures { result ≡ twin.same_fields a.now b.now }
{
    a.first == b.first
        && a.second == b.second
        && a.stamp == b.stamp
        && a.minor == b.minor
        && a.kind == b.kind
        && a.root == b.root
        && a.size == b.size
        && a.cluster == b.cluster
        && a.name == b.name
        && a.rest == b.rest
}

/// Whether a sector is a base block of these fields.
fn reads_as(sector: &[u8; 512], base: &BaseBlock) -> bool
    ensures { result ≡ has_fields base.now (as_log_base (base_of sector.now 0)) }
{
    match read_base(sector, 0) {
        Ok(read) => same_fields(&read, base),
        Err(_) => false,
    }
}

/// Whether the second copy's base block has these fields.
fn second_block_is<D: Disk>(disk: &mut D, base: &BaseBlock) -> Result<bool, LoadStop>
    requires on { (D.state disk.old).on ≡ true }
    requires still { D.tells ≡ true → (D.state disk.old).flight ≡ [] }
    ensures asked { OnlyReads (D.calls disk.old) (D.calls disk.new) }
    ensures same { D.tells ≡ true → Reads result (Ok (has_fields base.now (second_in (D.state disk.old).held))) }
    ensures look { IsLookAt D.tells (D.state disk.old) (D.state disk.new) result }
{
    let mut sector = [0; 512];
    let at = Address {
        file: HiveFile::Log,
        sector: 0,
    };
    match disk.read(at, &mut sector)? {
        Presence::Whole => Ok(reads_as(&sector, base)),
        Presence::Absent => Ok(false),
        Presence::Unreadable => Ok(false),
    }
}

/// Whether bins sector i of the second copy can be read and is that of these data.
fn second_sector_is<D: Disk>(disk: &mut D, bins: &[u8], i: usize) -> Result<bool, LoadStop>
    requires on { (D.state disk.old).on ≡ true }
    requires still { D.tells ≡ true → (D.state disk.old).flight ≡ [] }
    requires few { length bins.now ≤ most_bins }
    requires inside { 512 * i + 512 ≤ length bins.now }
    ensures asked { OnlyReads (D.calls disk.old) (D.calls disk.new) }
    ensures same { D.tells ≡ true → Reads result (Ok (has_bytes (sector bins.now i) (log_in (D.state disk.old).held (8 + i)))) }
    ensures look { IsLookAt D.tells (D.state disk.old) (D.state disk.new) result }
{
    let mut wanted = [0; 512];
    copy_sector(bins, i, &mut wanted);
    let mut sector = [0; 512];
    let at = Address {
        file: HiveFile::Log,
        sector: 8 + i as u32,
    };
    match disk.read(at, &mut sector)? {
        Presence::Whole => Ok(sector == wanted),
        Presence::Absent => Ok(false),
        Presence::Unreadable => Ok(false),
    }
}

/// Whether the bins sectors of the second copy can be read and are those of these data.
fn second_bins_are<D: Disk>(disk: &mut D, bins: &[u8]) -> Result<bool, LoadStop>
    requires on { (D.state disk.old).on ≡ true }
    requires still { D.tells ≡ true → (D.state disk.old).flight ≡ [] }
    requires few { length bins.now ≤ most_bins }
    ensures asked { OnlyReads (D.calls disk.old) (D.calls disk.new) }
    ensures same { D.tells ≡ true → Reads result (Ok (second_has (D.state disk.old).held bins.now (length bins.now / 512))) }
    ensures look { IsLookAt D.tells (D.state disk.old) (D.state disk.new) result }
{
    for i in 0..bins.len() / 512 {
        let same = second_sector_is(disk, bins, i)?;
        if !same {
            return Ok(false);
        }
    }
    Ok(true)
}

/// Whether the second copy is good, and has this base block and these bins data.
#[tactic(auto, using(crate::proofs::ReadingLemmas::reads_then))]
pub(crate) fn second_is<D: Disk>(
    disk: &mut D,
    base: &BaseBlock,
    bins: &[u8],
) -> Result<bool, LoadStop>
    requires on { (D.state disk.old).on ≡ true }
    requires still { D.tells ≡ true → (D.state disk.old).flight ≡ [] }
    requires few { length bins.now ≤ most_bins }
    ensures asked { OnlyReads (D.calls disk.old) (D.calls disk.new) }
    ensures same { D.tells ≡ true → Reads result (Ok (is_second (D.state disk.old).held base.now bins.now)) }
    ensures look { IsLookAt D.tells (D.state disk.old) (D.state disk.new) result }
{
    let same = second_block_is(disk, base)?;
    if !same {
        return Ok(false);
    }
    second_bins_are(disk, bins)
}
