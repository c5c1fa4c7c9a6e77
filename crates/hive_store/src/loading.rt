//! A session loaded from a disk.

ghost use Rattle.std.specs.Prelude.{◌≡◌, Bool, true, false, [], length, IfOk, Ok, MatchResult};
ghost use Rattle.hive_model.specs.Base.{is_bins_size};
ghost use Rattle.hive_model.specs.Image.{Image};
ghost use Rattle.hive_model.specs.Recovery.{recovered_of};
ghost use Rattle.hive_model.specs.Carries.{Carries};
ghost use Rattle.hive_model.specs.State.{HiveState};
ghost use Rattle.hive_model.specs.Load.{Loads, LoadsAs, LoadFault};
ghost use Rattle.nt_edge.specs.Crash.{EachCrash};
ghost use Rattle.hive_model.specs.Asked.{asked_of};
ghost use Rattle.hive_log.specs.Asked.{MakesReads, IsAsked};
ghost use Rattle.hive_log.specs.Found.{Found};
ghost use Rattle.hive_log.specs.Stops.{IsLookAt, IsLoadOn};
ghost use Rattle.hive_commit.specs.Alone.{KeepsAll, WritesOnlyDirty};
ghost use Rattle.hive_commit.specs.Calls.{MakesRecovery};
ghost use Rattle.hive_store.specs.Session.{AreCarried};
ghost use Rattle.hive_store.specs.Loading.{loaded_state, LoadsFrom, StopsFrom, AreOfLoad, HasLoaded};

use crate::Hive;
use crate::checking::taken_in;
use hive_commit::restore;
use hive_edit::HiveBytes;
use hive_log::{LoadStop, Reading, read_recovered};
use nt_bytes::{Bytes, ReadStop};
use nt_edge::Disk;
use std::alloc::Global;

/// What was read: the session, whether the primary is dirty, and the bits of the log that it was read with
/// (none where the primary is clean).
#[derive(Drop)]
struct Looked {
    hive: Hive,
    dirty: bool,
    bitmap: Bytes,
}

/// Reads the session, and checks the whole hive, unless the cells that were judged before are its. Nothing is written.
fn look<D: Disk>(alloc: Global, disk: &mut D, judged: Option<HiveBytes>) -> Result<Looked, LoadStop>
    requires on { (D.state disk.old).on ≡ true }
    requires still { D.tells ≡ true → (D.state disk.old).flight ≡ [] }
    ensures asked { MakesReads (D.calls disk.old) (D.calls disk.new)
        (λ sectors. D.tells ≡ true → IsAsked (asked_of (D.state disk.old).held) result sectors) }
    ensures exact { D.tells ≡ true → MatchResult result
        (λ x. Loads (D.state disk.old).held (loaded_state x.hive) x.dirty) (StopsFrom (D.state disk.old).held) }
    ensures recovered { D.tells ≡ true → IfOk result (λ x. recovered_of (D.state disk.old).held
        ≡ Ok (record { base = x.hive.base; bins = x.hive.bins; dirty = x.dirty })) }
    ensures carries { D.tells ≡ true → IfOk result (λ x. x.dirty ≡ false
        → Carries (D.state disk.old).held x.hive.base x.hive.bins) }
    ensures found { D.tells ≡ true → IfOk result (λ x. x.dirty ≡ true
        → Found (D.state disk.old).held x.hive.base x.bitmap x.hive.bins) }
    ensures sized { IfOk result (λ x. is_bins_size (length x.hive.bins) ≡ true) }
    ensures unchanged { IfOk result (λ x. x.hive.changed ≡ false) }
    ensures cells { IfOk result (λ x. AreCarried x.hive.base x.hive.bins x.hive.cells) }
    ensures look { IsLookAt D.tells (D.state disk.old) (D.state disk.new) result }
{
    let Reading { recovered, bitmap } = read_recovered(alloc, disk)?;
    let (base, dirty) = (recovered.base, recovered.dirty);
    let mut cells = match taken_in(alloc, judged, recovered) {
        Ok(cells) => cells,
        Err(ReadStop::Fault(fault)) => return Err(LoadStop::Fault(fault)),
        Err(ReadStop::Memory) => return Err(LoadStop::Memory),
    };
    cells.settle();
    Ok(Looked {
        hive: Hive {
            base,
            cells,
            changed: false,
        },
        dirty,
        bitmap,
    })
}

impl Hive {
    /// The session, and whether the primary was dirty. The disk is on and has nothing in flight. The whole
    /// hive is checked before a dirty primary is recovered, so a `Fault` has written nothing. Out of memory
    /// alone is free.
    pub fn load<D: Disk>(alloc: Global, disk: &mut D) -> Result<(Hive, bool), LoadStop>
        requires on { (D.state disk.old).on ≡ true }
        requires still { D.tells ≡ true → (D.state disk.old).flight ≡ [] }
        // It makes the calls of one recovery and no other: the reads, and then the writes of a dirty hive; of a
        // hive with a fault the reads alone. Which sectors, is said of a disk that shows what it holds.
        ensures made { MakesRecovery (D.calls disk.old) (D.calls disk.new)
            (λ calls. D.tells ≡ true → AreOfLoad (D.state disk.old).held result calls) }
        // At Ok the tree and the number are what the disk loads as, and so is whether it was dirty; a fault is its first.
        ensures exact { D.tells ≡ true → LoadsFrom (D.state disk.old).held result }
        // Then the disk is clean with the session's base block and bins data, and loads as its tree; nothing is changed yet.
        ensures loaded { IfOk result (HasLoaded D.tells (D.state disk.old) (D.state disk.new)) }
        // At every exit a cut leaves what loads as the disk did at entry.
        ensures crash { D.tells ≡ true → (s : HiveState) (dirty : Bool)
            → Loads (D.state disk.old).held s dirty
            → EachCrash (D.state disk.new) (λ (c : Image). LoadsAs c s) }
        // At every exit a cut leaves what is recovered as the disk was at entry, and the log and the rest of the primary as they were.
        ensures cut { D.tells ≡ true → KeepsAll (D.state disk.old) (D.state disk.new) }
        // Where the primary was clean, or the hive has a fault, all is as it was, whatever the answer.
        ensures written { WritesOnlyDirty D.tells (LoadFault (D.state disk.old).held) (D.state disk.old) (D.state disk.new) result }
        ensures goes { IsLoadOn (D.state disk.old) (D.state disk.new) result }
    {
        Hive::load_judged(alloc, disk, None)
    }

    /// The session, and whether the primary was dirty, as `load` answers them with the same reads and writes. Cells that were judged before may
    /// come along: where the disk holds their bytes, with their root and in their version, they are taken, and the hive is not checked again.
    pub fn load_judged<D: Disk>(
        alloc: Global,
        disk: &mut D,
        judged: Option<HiveBytes>,
    ) -> Result<(Hive, bool), LoadStop>
        requires on { (D.state disk.old).on ≡ true }
        requires still { D.tells ≡ true → (D.state disk.old).flight ≡ [] }
        ensures made { MakesRecovery (D.calls disk.old) (D.calls disk.new)
            (λ calls. D.tells ≡ true → AreOfLoad (D.state disk.old).held result calls) }
        ensures exact { D.tells ≡ true → LoadsFrom (D.state disk.old).held result }
        ensures loaded { IfOk result (HasLoaded D.tells (D.state disk.old) (D.state disk.new)) }
        ensures crash { D.tells ≡ true → (s : HiveState) (dirty : Bool)
            → Loads (D.state disk.old).held s dirty
            → EachCrash (D.state disk.new) (λ (c : Image). LoadsAs c s) }
        ensures cut { D.tells ≡ true → KeepsAll (D.state disk.old) (D.state disk.new) }
        ensures written { WritesOnlyDirty D.tells (LoadFault (D.state disk.old).held) (D.state disk.old) (D.state disk.new) result }
        ensures goes { IsLoadOn (D.state disk.old) (D.state disk.new) result }
    {
        let Looked {
            hive,
            dirty,
            bitmap,
        } = look(alloc, disk, judged)?;
        if dirty {
            let bins = hive.cells.bytes();
            restore(disk, &hive.base, bitmap.as_slice(), bins)?;
        }
        Ok((hive, dirty))
    }
}
