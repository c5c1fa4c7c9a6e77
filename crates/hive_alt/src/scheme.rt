//! A way to keep a hive on a disk.

ghost use Rattle.std.specs.Prelude.{◌≡◌, true, false, ℕ, List, [], length, Ok, Err, IfOk, OnOk, IsOk};
ghost use Rattle.nt_bytes.specs.declared.fault.HiveFault.{HiveFault};
ghost use Rattle.hive_model.specs.Base.{Base, is_bins_size};
ghost use Rattle.hive_model.specs.Image.{Image, image_of};
ghost use Rattle.nt_edge.specs.Calls.{Made, MakesUntil};
ghost use Rattle.nt_edge.specs.Crash.{EachCrash};
ghost use Rattle.nt_bytes.specs.Counts.{Rises};
ghost use Rattle.hive_log.specs.Stops.{Reads, ReadsFiles, IsLookAt, IsLoadOn};
ghost use Rattle.hive_commit.specs.Stages.{closed_of};
ghost use Rattle.hive_commit.specs.Stops.{IsCommitOn};
ghost use Rattle.hive_commit.specs.Untouched.{IsUntouched};
ghost use Rattle.hive_alt.specs.Schemes.{Standing, IsKeptAs, IsKeptAsEither, OnlyReads, AreOf, MakesLoad};

use hive_commit::{CommitStop, LoadStop, Recovered};
use nt_bytes::ReadStop;
use nt_edge::Disk;
use regf_base::BaseBlock;
use std::alloc::Global;

/// A way to keep a hive in two files, so that a cut of the power leaves what was before or what is after. Each
/// call wants the disk on, with nothing in flight.
pub trait Scheme {
    /// What an image stands for, or its first fault.
    ghost stands: { Standing };

    /// The state between two calls: the image is clean, and has this base block and these bins data.
    ghost settled: { Image → Base → List ℕ → Type 0 };

    /// The calls of a repair, of some image.
    ghost repairs: { List Made → Type 0 };

    /// The calls of a load of an image: it reads, and then repairs what is to be repaired.
    ghost loads: { Image → List Made → Type 0 };

    /// The calls of a commit: of the base block and the old data, and the new data with their root.
    ghost commits: { Base → List ℕ → List ℕ → ℕ → List Made };

    /// Reads what the disk stands for, and makes no call but reads. `Fault` is the first check that fails; out
    /// of memory alone is free.
    fn look<D: Disk>(alloc: Global, disk: &mut D) -> Result<Recovered, LoadStop>
        requires on { (D.state disk.old).on ≡ true }
        requires still { D.tells ≡ true → (D.state disk.old).flight ≡ [] }
        ensures asked { OnlyReads (D.calls disk.old) (D.calls disk.new) }
        ensures exact { D.tells ≡ true → Reads result (stands (D.state disk.old).held) }
        ensures sized { IfOk result (λ r. is_bins_size (length r.bins) ≡ true) }
        ensures look { IsLookAt D.tells (D.state disk.old) (D.state disk.new) result };

    /// What two files stand for; an empty one is absent.
    fn kept(alloc: Global, primary: &[u8], second: &[u8]) -> Result<Recovered, ReadStop>
        ensures exact { ReadsFiles result (stands (image_of primary.now second.now)) }
        ensures sized { IfOk result (λ r. is_bins_size (length r.bins) ≡ true) };

    /// Reads what the disk stands for, and repairs it. `Fault` is the first check that fails.
    fn load<D: Disk>(alloc: Global, disk: &mut D) -> Result<Recovered, LoadStop>
        requires on { (D.state disk.old).on ≡ true }
        requires still { D.tells ≡ true → (D.state disk.old).flight ≡ [] }
        // It makes the calls of one load and no other, after a fault the reads alone, and after another stop a prefix
        // of them. Which ones, is said of a disk that shows what it holds.
        ensures made { MakesLoad (D.calls disk.old) (D.calls disk.new) repairs
            (λ calls. D.tells ≡ true → AreOf (loads (D.state disk.old).held) result calls) }
        ensures exact { D.tells ≡ true → Reads result (stands (D.state disk.old).held) }
        ensures sized { IfOk result (λ r. is_bins_size (length r.bins) ≡ true) }
        ensures still { D.tells ≡ true → OnOk result ((D.state disk.new).flight ≡ []) }
        ensures mended { D.tells ≡ true → IfOk result (λ r. settled (D.state disk.new).held r.base r.bins) }
        // At every exit a cut leaves what stands for the same, be sectors in flight torn or not.
        ensures crash { D.tells ≡ true → (base : Base) (bins : List ℕ) → IsKeptAs stands base bins (D.state disk.old).held
            → EachCrash (D.state disk.new) (IsKeptAs stands base bins) }
        // What is clean is not written, whatever the answer, nor is what has a fault.
        ensures clean { D.tells ≡ true → (base : Base) (bins : List ℕ) → settled (D.state disk.old).held base bins
            → IsUntouched (D.state disk.old) (D.state disk.new) }
        ensures faulty { D.tells ≡ true → (fault : HiveFault) → stands (D.state disk.old).held ≡ Err fault
            → IsUntouched (D.state disk.old) (D.state disk.new) }
        ensures goes { IsLoadOn (D.state disk.old) (D.state disk.new) result };

    /// Puts new bins data with their root in the place of old ones, under the next sequence number. The size of
    /// the new data in bytes is a multiple of 4096 from 4096 to 16,777,216. No memory is taken; a refusal is the
    /// disk's own.
    fn commit<D: Disk>(
        disk: &mut D,
        base: &BaseBlock,
        old: &[u8],
        new: &[u8],
        root: u32,
    ) -> Result<BaseBlock, CommitStop>
        requires on { (D.state disk.old).on ≡ true }
        requires still { D.tells ≡ true → (D.state disk.old).flight ≡ [] }
        requires settled { D.tells ≡ true → settled (D.state disk.old).held base.now old.now }
        requires sized { is_bins_size (length new.now) ≡ true }
        // It makes these calls and no other; after a refusal a prefix of them.
        ensures made { MakesUntil (D.calls disk.old) (D.calls disk.new) (commits base.now old.now new.now root) result }
        ensures answered { IfOk result (λ b. b ≡ closed_of base.now new.now root) }
        ensures still { D.tells ≡ true → OnOk result ((D.state disk.new).flight ≡ []) }
        ensures settled { D.tells ≡ true → OnOk result (settled (D.state disk.new).held (closed_of base.now new.now root) new.now) }
        // At every exit a cut leaves what stands for before or for after, be sectors in flight torn or not.
        ensures crash { D.tells ≡ true → EachCrash (D.state disk.new)
            (IsKeptAsEither stands base.now old.now (closed_of base.now new.now root) new.now) }
        ensures goes { IsCommitOn (D.state disk.old) (D.state disk.new) result }
        // There is no other refusal: where no count rose, the commit is done.
        ensures done { (Rises (D.state disk.old).cuts (D.state disk.new).cuts → ⊥)
            → (Rises (D.state disk.old).faults (D.state disk.new).faults → ⊥)
            → (Rises (D.state disk.old).lacks (D.state disk.new).lacks → ⊥) → IsOk result };

    /// Between two calls the image stands for what it has, and there is nothing to repair.
    fn settled_is_clean()
        ensures { (image : Image) (base : Base) (bins : List ℕ) → is_bins_size (length bins) ≡ true
            → settled image base bins → stands image ≡ Ok (record { base = base; bins = bins; dirty = false }) };
}
