//! A hive loaded from a disk.

ghost use Rattle.std.specs.Prelude.{◌≡◌, true, false, [], length, IfOk, MatchResult};
ghost use Rattle.hive_model.specs.Asked.{asked_of};
ghost use Rattle.hive_model.specs.Base.{is_bins_size};
ghost use Rattle.hive_model.specs.Carries.{Carries};
ghost use Rattle.hive_model.specs.Load.{LoadFault};
ghost use Rattle.hive_log.specs.Asked.{MakesReads, IsAsked};
ghost use Rattle.hive_log.specs.Found.{Found};
ghost use Rattle.hive_log.specs.Stops.{IsLookAt, IsLoadOn};
ghost use Rattle.hive_commit.specs.Alone.{WritesOnlyDirty};
ghost use Rattle.hive_commit.specs.Calls.{MakesRecovery};
ghost use Rattle.hive_store.specs.Loading.{StopsFrom};
ghost use Rattle.mend_command.specs.hive_mend.Loading.{LoadsFrom, IsLoadOf, AreOfLoad, StandsAs, KeepsHive};

use crate::hive_mend::LoadedHive;
use hive_commit::restore;
use hive_log::{LoadStop, Reading, read_recovered};
use hive_store::tree_in;
use nt_bytes::{Bytes, ReadStop};
use nt_edge::Disk;
use std::alloc::Global;

/// What was read: the hive, whether the primary is dirty, and the bits of the log that it was read with
/// (none where the primary is clean).
#[derive(Drop)]
struct Unmended {
    hive: LoadedHive,
    dirty: bool,
    bitmap: Bytes,
}

/// Reads the hive, and checks all of it. Nothing is written.
fn read_unmended<D: Disk>(alloc: Global, disk: &mut D) -> Result<Unmended, LoadStop>
    requires on { (D.state disk.old).on ≡ true }
    requires still { D.tells ≡ true → (D.state disk.old).flight ≡ [] }
    ensures asked { MakesReads (D.calls disk.old) (D.calls disk.new)
        (λ sectors. D.tells ≡ true → IsAsked (asked_of (D.state disk.old).held) result sectors) }
    ensures exact { D.tells ≡ true → MatchResult result
        (λ x. IsLoadOf (D.state disk.old).held x.hive x.dirty) (StopsFrom (D.state disk.old).held) }
    ensures carries { D.tells ≡ true → IfOk result (λ x. x.dirty ≡ false
        → Carries (D.state disk.old).held x.hive.base x.hive.bins) }
    ensures dirty { D.tells ≡ true → IfOk result (λ x. x.dirty ≡ true
        → Found (D.state disk.old).held x.hive.base x.bitmap x.hive.bins) }
    ensures sized { IfOk result (λ x. is_bins_size (length x.hive.bins) ≡ true) }
    ensures look { IsLookAt D.tells (D.state disk.old) (D.state disk.new) result }
{
    let Reading { recovered, bitmap } = read_recovered(alloc, disk)?;
    let (base, dirty) = (recovered.base, recovered.dirty);
    match tree_in(alloc, recovered) {
        Ok((tree, bins)) => Ok(Unmended {
            hive: LoadedHive { base, bins, tree },
            dirty,
            bitmap,
        }),
        Err(ReadStop::Fault(fault)) => Err(LoadStop::Fault(fault)),
        Err(ReadStop::Memory) => Err(LoadStop::Memory),
    }
}

impl LoadedHive {
    /// The hive, and whether the primary was dirty. The disk is on and has nothing in flight. The whole
    /// hive is checked before a dirty primary is recovered, so a `Fault` has written nothing. Out of memory
    /// alone is free.
    pub fn load<D: Disk>(alloc: Global, disk: &mut D) -> Result<(LoadedHive, bool), LoadStop>
        requires on { (D.state disk.old).on ≡ true }
        requires still { D.tells ≡ true → (D.state disk.old).flight ≡ [] }
        // It makes the calls of one recovery and no other: the reads, and then the writes of a dirty hive; of a
        // hive with a fault the reads alone. Which sectors is stated of a disk that reports what it holds.
        ensures made { MakesRecovery (D.calls disk.old) (D.calls disk.new)
            (λ calls. D.tells ≡ true → AreOfLoad (D.state disk.old).held result calls) }
        // At Ok the hive is what the disk holds, and so is whether it was dirty; a fault is its first.
        ensures exact { D.tells ≡ true → LoadsFrom (D.state disk.old).held result }
        // Then the disk is clean with the hive's base block and bins data, and loads as its tree.
        ensures stands { IfOk result (λ x. StandsAs D.tells (D.state disk.new) x.0) }
        // At every exit a cut leaves what loads as the disk did at entry, with the log and the rest of the primary as they were.
        ensures cut { D.tells ≡ true → KeepsHive (D.state disk.old) (D.state disk.new) }
        // Where the primary was clean, or the hive has a fault, all is as it was, whatever the answer.
        ensures written { WritesOnlyDirty D.tells (LoadFault (D.state disk.old).held) (D.state disk.old) (D.state disk.new) result }
        ensures goes { IsLoadOn (D.state disk.old) (D.state disk.new) result }
    {
        let Unmended {
            hive,
            dirty,
            bitmap,
        } = read_unmended(alloc, disk)?;
        if dirty {
            restore(disk, &hive.base, bitmap.as_slice(), hive.bins.as_slice())?;
        }
        Ok((hive, dirty))
    }
}
