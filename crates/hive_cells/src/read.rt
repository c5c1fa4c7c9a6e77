//! Bins and cells checked.

ghost use Rattle.std.specs.Prelude.{◌≡◌, ◌+◌, ◌/◌, ◌%◌, ◌<◌, ◌≤◌, List, false, length, drop, replicate, IfOk, MatchResult};
ghost use Rattle.nt_bytes.specs.Reading.{Sees};
ghost use Rattle.hive_model.specs.Limits.{most_bins};
ghost use Rattle.hive_model.specs.Bins.{Bin, header_at, size_at, with_place, BinFails, BinsFault, IsBins};
ghost use Rattle.hive_cells.specs.Reading.{BinMarked, IsBinRead, IsKept, Stops};

use crate::heap::CellHeap;
use nt_bytes::{Bytes, HiveFault, HiveFaultKind, ReadStop, u32_at};
use std::alloc::{AllocError, Global};

/// The size in a bin's header.
#[tactic(auto, unfolding(hive_model::specs::Bins::header_at))]
fn header(rest: &[u8], at: u32) -> Result<u32, HiveFault>
    ensures exact { Sees (λ size. size) result (with_place at (header_at at rest.now)) }
    ensures bounds { IfOk result (λ size. (4096 ≤ size) × (size ≤ length rest.now) × (size % 4096 ≡ 0)) }
{
    if rest.len() < 4 {
        return Err(HiveFault {
            kind: HiveFaultKind::BinSign,
            at,
        });
    }
    if u32_at(rest, 0) != 0x6e69_6268 {
        return Err(HiveFault {
            kind: HiveFaultKind::BinSign,
            at,
        });
    }
    if rest.len() < 8 {
        return Err(HiveFault {
            kind: HiveFaultKind::BinOffset,
            at,
        });
    }
    if u32_at(rest, 4) != at {
        return Err(HiveFault {
            kind: HiveFaultKind::BinOffset,
            at,
        });
    }
    if rest.len() < 12 {
        return Err(HiveFault {
            kind: HiveFaultKind::BinSize,
            at,
        });
    }
    let size = u32_at(rest, 8);
    if size < 4096 {
        return Err(HiveFault {
            kind: HiveFaultKind::BinSize,
            at,
        });
    }
    if rest.len() < size as usize {
        return Err(HiveFault {
            kind: HiveFaultKind::BinSize,
            at,
        });
    }
    if size % 4096 != 0 {
        return Err(HiveFault {
            kind: HiveFaultKind::BinSize,
            at,
        });
    }
    Ok(size)
}

/// The size of a cell.
#[tactic(auto, unfolding(hive_model::specs::Bins::size_at))]
fn size(rest: &[u8], room: usize, at: u32) -> Result<usize, HiveFault>
    requires { 4 ≤ length rest.now }
    ensures exact { Sees (λ size. size) result (with_place at (size_at room rest.now)) }
    ensures bounds { IfOk result (λ size. (8 ≤ size) × (size ≤ room) × (size % 8 ≡ 0)) }
{
    let head = u32_at(rest, 0);
    let size = if head < 0x8000_0000 {
        u64::from(head)
    } else {
        0x1_0000_0000 - u64::from(head)
    };
    if size < 8 {
        return Err(HiveFault {
            kind: HiveFaultKind::CellSize,
            at,
        });
    }
    if size % 8 != 0 {
        return Err(HiveFault {
            kind: HiveFaultKind::CellSize,
            at,
        });
    }
    if (room as u64) < size {
        return Err(HiveFault {
            kind: HiveFaultKind::CellPastBin,
            at,
        });
    }
    Ok(size as usize)
}

/// Reads a bin, turns the flags on where its cells begin, and says how long it is.
fn read_bin(rest: &[u8], at: u32, starts: &mut Vec<bool>) -> Result<usize, HiveFault>
    requires small { at + length rest.now ≤ most_bins }
    requires some { 0 < length rest.now }
    requires off { drop (at / 8) starts.old.items ≡ replicate (length rest.now / 8) false }
    ensures exact { MatchResult result (BinMarked at rest.now starts.old.items starts.new.items) (BinFails at rest.now) }
    ensures within { IfOk result (λ size. size ≤ length rest.now) }
{
    let total = header(rest, at)? as usize;
    let slot = at as usize / 8;
    let mut cell = 32;
    'cells: while cell < total {
        let found = size(&rest[cell..], total - cell, at + cell as u32)?;
        starts[slot + cell / 8] = true;
        cell += found;
    }
    Ok(total)
}

/// The size of the bin at the front, whose cells fill it, or the first check that fails. No memory is taken.
fn check_bin(rest: &[u8], at: u32) -> Result<usize, HiveFault>
    requires small { at + length rest.now ≤ most_bins }
    requires some { 0 < length rest.now }
    ensures exact { MatchResult result (IsBinRead at rest.now) (BinFails at rest.now) }
    ensures within { IfOk result (λ size. (0 < size) × (size ≤ length rest.now)) }
{
    let total = header(rest, at)? as usize;
    let mut cell = 32;
    'cells: while cell < total {
        let found = size(&rest[cell..], total - cell, at + cell as u32)?;
        cell += found;
    }
    Ok(total)
}

/// Checks that bytes are bins. No memory is taken.
fn check_bins(all: &[u8]) -> Result<(), HiveFault>
    requires { length all.now ≤ most_bins }
    ensures { MatchResult result (λ done. (bins : List Bin) × IsBins all.now bins) (BinsFault all.now) }
{
    let mut at = 0;
    'reading: while at < all.len() {
        let size = check_bin(&all[at..], at as u32)?;
        at += size;
    }
    Ok(())
}

/// That many flags, each off.
fn flags_off(alloc: Global, count: usize) -> Result<Vec<bool>, AllocError>
    ensures { IfOk result (λ starts. starts.items ≡ replicate count false) }
{
    let mut starts = Vec::new(alloc);
    starts.resize(count, false)?;
    Ok(starts)
}

/// Turns the flags on where the cells of these bins begin, or the first check that fails. No memory is taken.
pub(crate) fn mark_bins(all: &[u8], starts: &mut Vec<bool>) -> Result<(), HiveFault>
    requires small { length all.now ≤ most_bins }
    requires off { starts.old.items ≡ replicate (length all.now / 8) false }
    ensures { MatchResult result (λ done. IsKept all.now starts.new.items) (BinsFault all.now) }
{
    let mut at = 0;
    'reading: while at < all.len() {
        let size = read_bin(&all[at..], at as u32, starts)?;
        at += size;
    }
    Ok(())
}

/// The heap that these bytes are, or the first check that fails. `Memory` comes only where none fails.
pub fn read_cells(alloc: Global, bins: Bytes) -> Result<CellHeap, ReadStop>
    requires { length bins ≤ most_bins }
    ensures { MatchResult result (IsBins bins) (Stops bins) }
{
    let bytes = bins.into_vec();
    let all = bytes.as_slice();
    let Ok(mut starts) = flags_off(alloc, all.len() / 8) else {
        check_bins(all)?;
        return Err(ReadStop::Memory);
    };
    mark_bins(all, &mut starts)?;
    Ok(CellHeap { bytes, starts })
}
