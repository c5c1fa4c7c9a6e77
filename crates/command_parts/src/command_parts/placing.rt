//! A hive and its log, checked and placed on the disk.

ghost use Rattle.std.specs.Prelude.{◌≡◌, false, [], length, min, take, unwrap_or, IfOk, OnOk, OnErr};
ghost use Rattle.hive_model.specs.Limits.{most_file};
ghost use Rattle.hive_model.specs.Valid.{IsValid};
ghost use Rattle.hive_store.specs.Checks.{ChecksAs, ChecksCells, JudgesAs};
ghost use Rattle.nt_edge.specs.Disk.{new_state};
ghost use Rattle.command_parts.specs.command_parts.Placed.{image_in, placed_disk, with_log, IsUnrun};

use crate::command_parts::inputs::HiveFiles;
use hive_edit::HiveBytes;
use hive_store::{check_cells, check_images, judge_images};
use nt_bytes::{Bytes, HiveVersion, ReadStop};
use nt_edge::{Bench, DiskStop, HiveFile};
use reg_tree::Key;
use std::alloc::Global;

/// The greatest file on a disk, in bytes: 65,536 sectors of 512.
pub const MOST_FILE: usize = 33_554_432;

/// The bytes that are placed of a file.
fn front(bytes: &[u8]) -> &[u8]
    ensures { result.now ≡ take (min (length bytes.now) most_file) bytes.now }
{
    &bytes[..bytes.len().min(MOST_FILE)]
}

/// The bytes of a log, none where there is no log.
fn log_bytes(log: &Option<Bytes>) -> &[u8]
    ensures { result.now ≡ unwrap_or log.now [] }
{
    match log {
        Some(log) => log.as_slice(),
        None => &[],
    }
}

/// Reads a whole hive with its log, as a start will load it: the tree, its sequence number and its version. Each key of
/// the tree is one that a hive can hold.
pub fn read(alloc: Global, files: &HiveFiles) -> Result<(Key, u32, HiveVersion), ReadStop>
    ensures checks { ChecksAs (image_in files.now) result }
    ensures valid { IfOk result (λ x. IsValid x.0) }
{
    check_images(alloc, files.primary.as_slice(), log_bytes(&files.log))
}

/// Judges a whole hive with its log, as a start will load it, and makes no tree: its sequence number and its version.
pub fn judge(alloc: Global, files: &HiveFiles) -> Result<(u32, HiveVersion), ReadStop>
    ensures { JudgesAs (image_in files.now) result }
{
    judge_images(alloc, files.primary.as_slice(), log_bytes(&files.log))
}

/// Judges a whole hive with its log, as a start will load it, and keeps its cells, in which keys are looked up; no tree is made. Beside them
/// its sequence number and its version.
pub fn judge_cells(
    alloc: Global,
    files: &HiveFiles,
) -> Result<(HiveBytes, u32, HiveVersion), ReadStop>
    ensures { ChecksCells (image_in files.now) result }
{
    check_cells(alloc, files.primary.as_slice(), log_bytes(&files.log))
}

/// Places the log on the disk, where there is one.
fn place_log<B: Bench>(log: &Option<Bytes>, bench: &mut B) -> Result<(), DiskStop>
    requires off { (B.state bench.old).on ≡ false }
    requires still { (B.state bench.old).flight ≡ [] }
    ensures placed { OnOk result (B.state bench.new ≡ with_log log.now (B.state bench.old)) }
    ensures before { OnErr result (B.state bench.new ≡ B.state bench.old) }
{
    match log {
        Some(log) => bench.place(HiveFile::Log, front(log.as_slice())),
        None => Ok(()),
    }
}

/// Places a hive and its log, where there is one, of each the first 32 MiB, on a new disk.
pub fn place<B: Bench>(files: &HiveFiles, bench: &mut B) -> Result<(), DiskStop>
    requires fresh { B.state bench.old ≡ new_state }
    ensures placed { OnOk result (B.state bench.new ≡ placed_disk files.now) }
    ensures unrun { OnErr result (IsUnrun (B.state bench.new)) }
{
    bench.place(HiveFile::Primary, front(files.primary.as_slice()))?;
    place_log(&files.log, bench)
}
