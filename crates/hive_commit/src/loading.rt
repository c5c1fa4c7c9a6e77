//! What a disk stands for, and a recovery that leaves it clean.

ghost use Rattle.std.specs.Prelude.{◌≡◌, true, [], length, Err, IfOk};
ghost use Rattle.nt_bytes.specs.declared.fault.HiveFault.{HiveFault};
ghost use Rattle.hive_model.specs.Base.{is_bins_size};
ghost use Rattle.hive_model.specs.Recovery.{recovered_of};
ghost use Rattle.hive_model.specs.Asked.{asked_of};
ghost use Rattle.hive_log.specs.Asked.{MakesReads, IsAsked};
ghost use Rattle.hive_log.specs.Stops.{Reads, IsLookAt, IsLoadOn};
ghost use Rattle.hive_commit.specs.Calls.{recovery_calls, AreAll, MakesRecovery};
ghost use Rattle.hive_commit.specs.Alone.{KeepsAll, WritesOnlyDirty};
ghost use Rattle.hive_commit.specs.Commits.{IsRecoveredOn};

use crate::restoring::restore;
use hive_log::{LoadStop, Reading, Recovered, read_recovered};
use nt_edge::Disk;
use std::alloc::Global;

/// Reads what the disk stands for, and writes nothing. The disk is on and has nothing in flight. `Fault`
/// is the first check that fails; out of memory alone is free.
pub fn look<D: Disk>(alloc: Global, disk: &mut D) -> Result<Recovered, LoadStop>
    requires on { (D.state disk.old).on ≡ true }
    requires still { D.tells ≡ true → (D.state disk.old).flight ≡ [] }
    // No call is made but reads: of the sectors that recovery asks for, each once, in its order.
    ensures asked { MakesReads (D.calls disk.old) (D.calls disk.new)
        (λ sectors. D.tells ≡ true → IsAsked (asked_of (D.state disk.old).held) result sectors) }
    ensures exact { D.tells ≡ true → Reads result (recovered_of (D.state disk.old).held) }
    ensures sized { IfOk result (λ r. is_bins_size (length r.bins) ≡ true) }
    ensures look { IsLookAt D.tells (D.state disk.old) (D.state disk.new) result }
{
    let Reading {
        recovered,
        bitmap: _,
    } = read_recovered(alloc, disk)?;
    Ok(recovered)
}

/// Reads what the disk stands for, and leaves the primary clean with it. The disk is on and has nothing in
/// flight. `Fault` is the first check that fails, and has written nothing; all memory is taken before the
/// first write. A clean primary is not written, and the log never.
pub fn recover<D: Disk>(alloc: Global, disk: &mut D) -> Result<Recovered, LoadStop>
    requires on { (D.state disk.old).on ≡ true }
    requires still { D.tells ≡ true → (D.state disk.old).flight ≡ [] }
    // It reads as a look does, and then writes each sector that the log gave, a sync, the base block, a sync;
    // which sectors, is said of a disk that shows what it holds.
    ensures made { MakesRecovery (D.calls disk.old) (D.calls disk.new)
        (λ calls. D.tells ≡ true → AreAll (recovery_calls (D.state disk.old).held) result calls) }
    ensures exact { D.tells ≡ true → Reads result (recovered_of (D.state disk.old).held) }
    // At Ok the disk is clean with the answer: a base block that can't be read is rewritten.
    ensures recovered { IfOk result (IsRecoveredOn D.tells (D.state disk.new)) }
    // At every exit a cut leaves what is recovered as the disk was at entry, and the log and the rest of the primary as they were.
    ensures cut { D.tells ≡ true → KeepsAll (D.state disk.old) (D.state disk.new) }
    // Where the primary was clean, or the hive has a fault, all is as it was, whatever the answer.
    ensures written { WritesOnlyDirty D.tells (λ (fault : HiveFault). recovered_of (D.state disk.old).held ≡ Err fault)
        (D.state disk.old) (D.state disk.new) result }
    ensures goes { IsLoadOn (D.state disk.old) (D.state disk.new) result }
{
    let Reading { recovered, bitmap } = read_recovered(alloc, disk)?;
    if recovered.dirty {
        restore(
            disk,
            &recovered.base,
            bitmap.as_slice(),
            recovered.bins.as_slice(),
        )?;
    }
    Ok(recovered)
}
