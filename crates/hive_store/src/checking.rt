//! A whole hive checked, down to its tree.

ghost use Rattle.std.specs.Prelude.{◌≡◌, true, length, IfOk, IfSome};
ghost use Rattle.hive_model.specs.Base.{is_bins_size};
ghost use Rattle.hive_model.specs.Image.{image_of};
ghost use Rattle.hive_model.specs.Valid.{IsValid};
ghost use Rattle.hive_store.specs.Checks.{HoldsAs, HoldsIn, HoldsSome, AreOf, ChecksAs, ChecksCells, JudgesAs};

use hive_cells::read_cells;
use hive_edit::HiveBytes;
use hive_log::{Recovered, recovered};
use hive_read::{judge, read_tree};
use nt_bytes::{Bytes, HiveVersion, ReadStop};
use reg_tree::Key;
use std::alloc::Global;

/// The tree of what was recovered, with the bins data given back, or the first fault of its bins, and then
/// of the tree in them. The bins data are not copied. Out of memory alone is free.
pub fn tree_in(alloc: Global, found: Recovered) -> Result<(Key, Bytes), ReadStop>
    requires sized { is_bins_size (length found.bins) ≡ true }
    ensures exact { HoldsAs found result }
    ensures valid { IfOk result (λ x. IsValid x.0) }
{
    let base = found.base;
    let cells = read_cells(alloc, found.bins)?;
    let tree = read_tree(alloc, &cells, base.root, base.version())?;
    Ok((tree, cells.into_bytes()))
}

/// Judges what was recovered: its bins, and then the tree in them. No tree is made.
fn judge_in(alloc: Global, found: Recovered) -> Result<(), ReadStop>
    requires sized { is_bins_size (length found.bins) ≡ true }
    ensures exact { HoldsSome found result }
{
    let base = found.base;
    let cells = read_cells(alloc, found.bins)?;
    let _bulk = judge(alloc, &cells, base.root, base.version())?;
    Ok(())
}

/// The hive of what was recovered, or the first fault of its bins, and then of the tree in them.
fn hive_in(alloc: Global, found: Recovered) -> Result<HiveBytes, ReadStop>
    requires sized { is_bins_size (length found.bins) ≡ true }
    ensures exact { HoldsIn found result }
{
    let base = found.base;
    let cells = read_cells(alloc, found.bins)?;
    HiveBytes::from_cells(alloc, cells, base.root, base.version())
}

/// Whether the cells have the bytes, the root and the version of what was recovered. Then they are the cells of that.
fn are_of(cells: &HiveBytes, found: &Recovered) -> bool
    ensures { result ≡ true → AreOf found.now cells.now }
{
    if cells.root() != found.base.root {
        return false;
    }
    if cells.version() != found.base.version() {
        return false;
    }
    cells.bytes() == found.bins.as_slice()
}

/// The cells that were judged before, where they are those of what was recovered.
fn judged_of(judged: Option<HiveBytes>, found: &Recovered) -> Option<HiveBytes>
    ensures { IfSome result (AreOf found.now) }
{
    let Some(cells) = judged else {
        return None;
    };
    if !are_of(&cells, found) {
        return None;
    }
    Some(cells)
}

/// The hive of what was recovered, or its first fault. Nothing is judged where the cells that were judged before are those of it.
pub(crate) fn taken_in(
    alloc: Global,
    judged: Option<HiveBytes>,
    found: Recovered,
) -> Result<HiveBytes, ReadStop>
    requires sized { is_bins_size (length found.bins) ≡ true }
    ensures exact { HoldsIn found result }
{
    match judged_of(judged, &found) {
        Some(cells) => Ok(cells),
        None => hive_in(alloc, found),
    }
}

/// The tree, the sequence number and the version of two files, or the first fault. An empty log is an absent
/// one. Out of memory alone is free.
pub fn check_images(
    alloc: Global,
    primary: &[u8],
    log: &[u8],
) -> Result<(Key, u32, HiveVersion), ReadStop>
    ensures exact { ChecksAs (image_of primary.now log.now) result }
    ensures valid { IfOk result (λ x. IsValid x.0) }
{
    let found = recovered(alloc, primary, log)?;
    let base = found.base;
    let (tree, _bins) = tree_in(alloc, found)?;
    Ok((tree, base.first, base.version()))
}

/// The sequence number and the version of two files, or the first fault, as `check_images` answers them, but
/// no tree is made. Out of memory alone is free.
pub fn judge_images(
    alloc: Global,
    primary: &[u8],
    log: &[u8],
) -> Result<(u32, HiveVersion), ReadStop>
    ensures exact { JudgesAs (image_of primary.now log.now) result }
{
    let found = recovered(alloc, primary, log)?;
    let base = found.base;
    judge_in(alloc, found)?;
    Ok((base.first, base.version()))
}

/// The cells, the sequence number and the version of two files, or the first fault, as `check_images` answers them;
/// no tree is made. Out of memory alone is free.
pub fn check_cells(
    alloc: Global,
    primary: &[u8],
    log: &[u8],
) -> Result<(HiveBytes, u32, HiveVersion), ReadStop>
    ensures exact { ChecksCells (image_of primary.now log.now) result }
{
    let found = recovered(alloc, primary, log)?;
    let base = found.base;
    let cells = hive_in(alloc, found)?;
    Ok((cells, base.first, base.version()))
}
