//! What a disk is recovered as, by reading alone.

ghost use Rattle.std.specs.Prelude.{◌≡◌, ◌<◌, ◌≤◌, ◌+◌, ◌*◌, ◌/◌, ℕ, true, false, Some, Ok, [], length, IfOk};
ghost use Rattle.hive_model.specs.Limits.{most_bins};
ghost use Rattle.hive_model.specs.Asked.{run_at, one_by_one, asked_log, asked_behind_base, asked_of};
ghost use Rattle.hive_model.specs.Base.{is_bins_size};
ghost use Rattle.hive_model.specs.Image.{Primary, Bytes as Held};
ghost use Rattle.hive_model.specs.Recovery.{primary_in, sector, bit, base_in, by_log, recovered_of};
ghost use Rattle.hive_model.specs.Carries.{Carries, HasBase};
ghost use Rattle.hive_log.specs.Asked.{asked_log_bits, asked_by_bits, AsksFirst, MakesReads, IsAsked};
ghost use Rattle.hive_log.specs.Found.{IsUnfinished, HasLogBits, bins_by, Found};
ghost use Rattle.hive_log.specs.Shown.{read_of};
ghost use Rattle.hive_log.specs.Stops.{Reads, ReadsAs, HasItsFault, IsLookAt};

use crate::blocks::{
    bits_behind, closed_block, count_bits, goes_with, read_bitmap, read_log_block,
    read_primary_block,
};
use crate::gathering::{read_bins, read_log_run};
use crate::{LoadStop, Recovered, first_dirty};
use nt_bytes::{Bytes, HiveFault, HiveFaultKind};
use nt_edge::Disk;
use regf_base::BaseBlock;
use std::alloc::Global;

/// What was read: what the disk is recovered as, and the bits of the log that it was read with (none
/// where the primary is clean).
#[derive(Debug, Drop)]
pub struct Reading {
    pub recovered: Recovered,
    pub bitmap: Bytes,
}

/// Reads what the disk is recovered as. What it holds and its record stay. No call is made
/// but reads: of the sectors that recovery asks for, each once, in its order.
pub fn read_recovered<D: Disk>(alloc: Global, disk: &mut D) -> Result<Reading, LoadStop>
    requires on { (D.state disk.old).on ≡ true }
    requires still { D.tells ≡ true → (D.state disk.old).flight ≡ [] }
    ensures asked { MakesReads (D.calls disk.old) (D.calls disk.new)
        (λ sectors. D.tells ≡ true → IsAsked (asked_of (D.state disk.old).held) result sectors) }
    ensures exact { D.tells ≡ true → ReadsAs read_of result (recovered_of (D.state disk.old).held) }
    ensures carries { D.tells ≡ true → IfOk result (λ r. r.recovered.dirty ≡ false → Carries (D.state disk.old).held r.recovered.base r.recovered.bins) }
    ensures found { D.tells ≡ true → IfOk result (λ r. r.recovered.dirty ≡ true → Found (D.state disk.old).held r.recovered.base r.bitmap r.recovered.bins) }
    ensures no_bits { IfOk result (λ r. r.recovered.dirty ≡ false → r.bitmap ≡ []) }
    ensures sized { IfOk result (λ r. is_bins_size (length r.recovered.bins) ≡ true) }
    ensures look { IsLookAt D.tells (D.state disk.old) (D.state disk.new) result }
{
    match read_primary_block(disk)? {
        Some(base) => read_behind(alloc, disk, base),
        None => read_dirty(alloc, disk, &None),
    }
}

/// After the primary's base block.
fn read_behind<D: Disk>(alloc: Global, disk: &mut D, base: BaseBlock) -> Result<Reading, LoadStop>
    requires on { (D.state disk.old).on ≡ true }
    requires still { D.tells ≡ true → (D.state disk.old).flight ≡ [] }
    requires block { D.tells ≡ true → HasBase (D.state disk.old).held base }
    requires size { is_bins_size base.size ≡ true }
    ensures asked { MakesReads (D.calls disk.old) (D.calls disk.new)
        (λ sectors. D.tells ≡ true → IsAsked (asked_behind_base (D.state disk.old).held (Some base)) result sectors) }
    ensures exact { D.tells ≡ true → ReadsAs read_of result (recovered_of (D.state disk.old).held) }
    ensures carries { D.tells ≡ true → IfOk result (λ r. r.recovered.dirty ≡ false → Carries (D.state disk.old).held r.recovered.base r.recovered.bins) }
    ensures found { D.tells ≡ true → IfOk result (λ r. r.recovered.dirty ≡ true → Found (D.state disk.old).held r.recovered.base r.bitmap r.recovered.bins) }
    ensures no_bits { IfOk result (λ r. r.recovered.dirty ≡ false → r.bitmap ≡ []) }
    ensures sized { IfOk result (λ r. is_bins_size (length r.recovered.bins) ≡ true) }
    ensures look { IsLookAt D.tells (D.state disk.old) (D.state disk.new) result }
{
    if base.first == base.second {
        read_clean(alloc, disk, base)
    } else {
        read_dirty(alloc, disk, &Some(base))
    }
}

/// The bins data of a clean primary.
fn read_clean<D: Disk>(alloc: Global, disk: &mut D, base: BaseBlock) -> Result<Reading, LoadStop>
    requires on { (D.state disk.old).on ≡ true }
    requires still { D.tells ≡ true → (D.state disk.old).flight ≡ [] }
    requires block { D.tells ≡ true → HasBase (D.state disk.old).held base }
    requires clean { base.first ≡ base.second }
    requires size { is_bins_size base.size ≡ true }
    ensures exact { D.tells ≡ true → ReadsAs read_of result (recovered_of (D.state disk.old).held) }
    ensures asked { MakesReads (D.calls disk.old) (D.calls disk.new)
        (λ sectors. D.tells ≡ true
        → IsAsked (one_by_one (D.state disk.old).held (run_at Primary 8 (base.size / 512)) []) result sectors) }
    ensures clean { IfOk result (λ r. r.recovered.dirty ≡ false) }
    ensures no_bits { IfOk result (λ r. r.bitmap ≡ []) }
    ensures carries { D.tells ≡ true → IfOk result (λ r. Carries (D.state disk.old).held r.recovered.base r.recovered.bins) }
    ensures sized { IfOk result (λ r. is_bins_size (length r.recovered.bins) ≡ true) }
    ensures look { IsLookAt D.tells (D.state disk.old) (D.state disk.new) result }
{
    let bins = read_bins(alloc, disk, &[], &[], base.size / 512)?;
    Ok(Reading {
        recovered: Recovered {
            base,
            bins,
            dirty: false,
        },
        bitmap: Bytes::new(alloc),
    })
}

/// An unfinished commit, by its log.
fn read_dirty<D: Disk>(
    alloc: Global,
    disk: &mut D,
    opened: &Option<BaseBlock>,
) -> Result<Reading, LoadStop>
    requires on { (D.state disk.old).on ≡ true }
    requires still { D.tells ≡ true → (D.state disk.old).flight ≡ [] }
    requires block { D.tells ≡ true → base_in (D.state disk.old).held ≡ Ok opened.now }
    requires unfinished { IsUnfinished opened.now }
    ensures exact { D.tells ≡ true → ReadsAs read_of result (recovered_of (D.state disk.old).held) }
    ensures asked { MakesReads (D.calls disk.old) (D.calls disk.new)
        (λ sectors. D.tells ≡ true → IsAsked (asked_log (D.state disk.old).held opened.now) result sectors) }
    ensures dirty { IfOk result (λ r. r.recovered.dirty ≡ true) }
    ensures found { D.tells ≡ true → IfOk result (λ r. Found (D.state disk.old).held r.recovered.base r.bitmap r.recovered.bins) }
    ensures sized { IfOk result (λ r. is_bins_size (length r.recovered.bins) ≡ true) }
    ensures look { IsLookAt D.tells (D.state disk.old) (D.state disk.new) result }
{
    let LogBits { logged, bitmap } = read_log_bits(alloc, disk, opened)?;
    let bins = read_by_bits(alloc, disk, bitmap.as_slice(), logged.size)?;
    Ok(Reading {
        recovered: Recovered {
            base: closed_block(logged),
            bins,
            dirty: true,
        },
        bitmap,
    })
}

/// The log's base block, and its bits after their signature.
#[derive(Drop)]
struct LogBits {
    logged: BaseBlock,
    bitmap: Bytes,
}

/// Reads the log as far as its bits. Its base block has to go with the primary's.
fn read_log_bits<D: Disk>(
    alloc: Global,
    disk: &mut D,
    opened: &Option<BaseBlock>,
) -> Result<LogBits, LoadStop>
    requires on { (D.state disk.old).on ≡ true }
    requires still { D.tells ≡ true → (D.state disk.old).flight ≡ [] }
    ensures bits { D.tells ≡ true → IfOk result (λ l. HasLogBits (D.state disk.old).held opened.now l.logged l.bitmap) }
    ensures fault { D.tells ≡ true → HasItsFault result (by_log (D.state disk.old).held opened.now) }
    ensures asked { AsksFirst (D.calls disk.old) (D.calls disk.new) D.tells
        (asked_log_bits (D.state disk.old).held opened.now) result }
    ensures sized { IfOk result (λ l. is_bins_size l.logged.size ≡ true) }
    ensures look { IsLookAt D.tells (D.state disk.old) (D.state disk.new) result }
{
    let logged = read_log_block(disk)?;
    if !goes_with(opened, &logged) {
        return Err(LoadStop::Fault(HiveFault {
            kind: HiveFaultKind::LogSequence,
            at: 4,
        }));
    }
    let text = read_bitmap(alloc, disk, logged.size)?;
    let bitmap = bits_behind(alloc, text.as_slice())?;
    Ok(LogBits { logged, bitmap })
}

/// Reads the bins data of this size in bytes: the sectors whose bit is on from the log, all of them first,
/// and the others from the primary.
fn read_by_bits<D: Disk>(
    alloc: Global,
    disk: &mut D,
    bitmap: &[u8],
    size: u32,
) -> Result<Bytes, LoadStop>
    requires on { (D.state disk.old).on ≡ true }
    requires still { D.tells ≡ true → (D.state disk.old).flight ≡ [] }
    requires few { size ≤ most_bins }
    ensures bins { D.tells ≡ true → Reads result (bins_by (D.state disk.old).held size (bit bitmap.now)) }
    ensures asked { AsksFirst (D.calls disk.old) (D.calls disk.new) D.tells
        (asked_by_bits (D.state disk.old).held size (bit bitmap.now)) result }
    ensures long { IfOk result (λ b. length b ≡ 512 * (size / 512)) }
    ensures unmarked { D.tells ≡ true → IfOk result (λ b. (i : ℕ) → i < size / 512 → bit bitmap.now i ≡ false
        → primary_in (D.state disk.old).held (8 + i) ≡ Some (Held (sector b i))) }
    ensures look { IsLookAt D.tells (D.state disk.old) (D.state disk.new) result }
{
    let count = size / 512;
    let marked = count_bits(bitmap, count);
    let run = read_log_run(alloc, disk, first_dirty(size as usize), marked)?;
    read_bins(alloc, disk, bitmap, run.as_slice(), count)
}
