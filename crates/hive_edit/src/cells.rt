//! Runs of new cells put.

ghost use Rattle.std.specs.Prelude.{◌≡◌, ◌≤◌, ◌<◌, ℕ, length, slice_index, OnOk, OnErr, MatchOption};
ghost use Rattle.hive_model.specs.Limits.{most_bins};
ghost use Rattle.hive_model.specs.Bins.{bins_size, spelled};
ghost use Rattle.hive_cells.specs.Held.{run_cells, IsRun};
ghost use Rattle.hive_edit.specs.Runs.{IsNewPlace, IsPlace, IsRunPutAt, LacksPlace};

use hive_cells::{MOST_BINS, OpenHeap};
use std::alloc::AllocError;

/// How many bytes the bins data have, at most 16 MiB.
pub(crate) fn long(heap: &OpenHeap) -> u32
    ensures long { result ≡ bins_size heap.now.bins }
    ensures fits { bins_size heap.now.bins ≤ most_bins }
{
    heap.bytes().len() as u32
}

/// What the bins data have are bytes.
pub(crate) fn are_bytes(heap: &OpenHeap)
    ensures { (i : ℕ) → slice_index (spelled 0 heap.now.bins) i < 256 }
{
    bytes_small(heap.bytes());
}

/// Bytes are small numbers.
fn bytes_small(bytes: &[u8])
    ensures { (i : ℕ) → slice_index bytes.now i < 256 }
{
    let _whole = bytes;
}

/// Where a run of that many bytes is to be put, if there is room: nothing changes.
pub(crate) fn place_for(heap: &OpenHeap, size: u32) -> Option<u32>
    requires some { 0 < size }
    requires few { size ≤ most_bins }
    ensures { MatchOption result (LacksPlace size heap.now.bins) (IsPlace size heap.now.bins) }
{
    let long = long(heap);
    match heap.fit(size) {
        Some(at) => Some(at),
        None => {
            if long + (size + 4127) / 4096 * 4096 > MOST_BINS as u32 {
                return None;
            }
            Some(long + 32)
        }
    }
}

/// Puts a run into a new bin.
fn put_behind(heap: &mut OpenHeap, at: u32, run: &[u8]) -> Result<(), AllocError>
    requires few { length run.now ≤ most_bins }
    requires place { IsNewPlace (length run.now) heap.old.bins at }
    requires run { IsRun run.now }
    ensures put { OnOk result (IsRunPutAt (length run.now) at (run_cells run.now) heap.old.bins heap.new.bins) }
    ensures refused { OnErr result (heap.new ≡ heap.old) }
    ensures base { heap.new.base ≡ heap.old.base }
{
    match heap.grow(run.len() as u32)? {
        None => unreachable!(),
        Some(at) => {
            heap.fill(at, run);
            Ok(())
        }
    }
}

/// Puts a run of allocated cells at the place that `place_for` answers. The heap is as it was where there is no
/// memory, which only a new bin takes.
pub(crate) fn put_run(heap: &mut OpenHeap, at: u32, run: &[u8]) -> Result<(), AllocError>
    requires place { IsPlace (length run.now) heap.old.bins at }
    requires run { IsRun run.now }
    ensures put { OnOk result (IsRunPutAt (length run.now) at (run_cells run.now) heap.old.bins heap.new.bins) }
    ensures refused { OnErr result (heap.new ≡ heap.old) }
    ensures base { heap.new.base ≡ heap.old.base }
{
    if at > long(heap) {
        return put_behind(heap, at, run);
    }
    heap.fill(at, run);
    Ok(())
}
