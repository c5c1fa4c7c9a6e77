//! Reading the bins sectors of a copy. Nothing is written.

ghost use Rattle.std.specs.Prelude.{◌≡◌, ◌<◌, ◌+◌, ◌*◌, ℕ, true, Ok, [], ◌∷◌, length, IfOk};
ghost use Rattle.hive_model.specs.Recovery.{gathered, sector};
ghost use Rattle.nt_edge.specs.Book.{file_of};
ghost use Rattle.nt_edge.specs.Calls.{Makes, ReadAt};
ghost use Rattle.hive_log.specs.Stops.{Reads, ReadsAs, IsLookAt};
ghost use Rattle.hive_alt.specs.Schemes.{OnlyReads};
ghost use Rattle.hive_alt.specs.Twin.{copy_at, absent_at, torn_at, read_in};

use hive_log::{LoadStop, read_sector};
use nt_bytes::{Bytes, HiveFault, HiveFaultKind};
use nt_edge::{Address, Disk, HiveFile};
use std::alloc::Global;

/// The fault of a copy whose bins sector i is absent.
fn absent_in(file: HiveFile, i: u32) -> HiveFault
    requires { i < 100000 }
    ensures { result ≡ absent_at (file_of file) i }
{
    match file {
        HiveFile::Primary => HiveFault {
            kind: HiveFaultKind::Size,
            at: 40,
        },
        HiveFile::Log => HiveFault {
            kind: HiveFaultKind::LogShort,
            at: 512 * (8 + i),
        },
    }
}

/// The fault of a copy whose bins sector i can't be read.
fn torn_in(file: HiveFile, i: u32) -> HiveFault
    requires { i < 100000 }
    ensures { result ≡ torn_at (file_of file) i }
{
    match file {
        HiveFile::Primary => HiveFault {
            kind: HiveFaultKind::Unreadable,
            at: 512 * (8 + i),
        },
        HiveFile::Log => HiveFault {
            kind: HiveFaultKind::LogUnreadable,
            at: 512 * (8 + i),
        },
    }
}

/// Reads bins sector i of a copy.
fn read_copy_sector<D: Disk>(
    disk: &mut D,
    file: HiveFile,
    i: u32,
    into: &mut [u8; 512],
) -> Result<(), LoadStop>
    requires on { (D.state disk.old).on ≡ true }
    requires still { D.tells ≡ true → (D.state disk.old).flight ≡ [] }
    requires few { i < 100000 }
    ensures made { Makes (D.calls disk.old) (D.calls disk.new) (ReadAt (copy_at (file_of file) (8 + i)) ∷ []) }
    ensures bytes { D.tells ≡ true → ReadsAs (λ _. into.new) result (read_in (file_of file) (D.state disk.old).held i) }
    ensures look { IsLookAt D.tells (D.state disk.old) (D.state disk.new) result }
{
    let at = Address {
        file,
        sector: 8 + i,
    };
    read_sector(disk, at, absent_in(file, i), torn_in(file, i), into)
}

/// The first bins sectors of a copy.
pub(crate) fn read_run<D: Disk>(
    alloc: Global,
    disk: &mut D,
    file: HiveFile,
    count: u32,
) -> Result<Bytes, LoadStop>
    requires on { (D.state disk.old).on ≡ true }
    requires still { D.tells ≡ true → (D.state disk.old).flight ≡ [] }
    requires few { count < 100000 }
    ensures asked { OnlyReads (D.calls disk.old) (D.calls disk.new) }
    ensures run { D.tells ≡ true → Reads result (gathered (read_in (file_of file) (D.state disk.old).held) 0 count) }
    ensures long { IfOk result (λ b. length b ≡ 512 * count) }
    ensures sectors { D.tells ≡ true → IfOk result (λ b. (k : ℕ) → k < count
        → read_in (file_of file) (D.state disk.old).held k ≡ Ok (sector b k)) }
    ensures look { IsLookAt D.tells (D.state disk.old) (D.state disk.new) result }
{
    let mut bytes = Bytes::new(alloc);
    let mut sector = [0; 512];
    for k in 0..count {
        read_copy_sector(disk, file, k, &mut sector)?;
        bytes.append(&sector)?;
    }
    Ok(bytes)
}
