//! A change of the default set, over any way to keep a hive.

ghost use Rattle.std.specs.Prelude.{◌≡◌, true, ℕ, List, [], length, Ok, Err, IfOk, IfErr, OnOk, MatchResult};
ghost use Rattle.nt_bytes.specs.declared.fault.HiveFault.{HiveFault};
ghost use Rattle.hive_model.specs.Base.{Base, is_bins_size};
ghost use Rattle.hive_model.specs.Image.{Image, image_of};
ghost use Rattle.hive_model.specs.Load.{Holds};
ghost use Rattle.hive_model.specs.Recovery.{Recovered as RecoveredBook};
ghost use Rattle.hive_model.specs.Tree.{Tree};
ghost use Rattle.hive_model.specs.Valid.{IsValid};
ghost use Rattle.nt_edge.specs.Crash.{EachCrash};
ghost use Rattle.nt_edge.specs.Frames.{GoesOn};
ghost use Rattle.hive_log.specs.Stops.{IsLoadOn};
ghost use Rattle.hive_commit.specs.Untouched.{IsUntouched};
ghost use Rattle.hive_store.specs.Checks.{held_state};
ghost use Rattle.hive_commit.specs.Stages.{closed_of};
ghost use Rattle.hive_alt.specs.Changes.{Answers, IsEitherOf, StandsAfter, IsDecided, IsLost, IsFailed, IsLacking};
ghost use Rattle.hive_alt.specs.Plans.{IsFound, IsStandStop, AfterFault, ChecksFor, committed_to, IsCommitStop};
ghost use Rattle.hive_alt.specs.Schemes.{IsKeptAs, IsKeptAsEither};
ghost use Rattle.hive_alt.specs.declared.change.ChangeStop.TheVariants as stops;

use crate::planning::{Plan, plan_of, tree_of};
use crate::{ChangeStop, Changed, Scheme};
use hive_commit::{CommitStop, LoadStop, Recovered};
use nt_bytes::ReadStop;
use nt_edge::Disk;
use reg_tree::Key;
use regf_base::BaseBlock;
use std::alloc::Global;

/// Where `pack` puts the root.
const ROOT: u32 = 32;

/// What was loaded, with its tree.
#[derive(Drop)]
struct Loaded {
    found: Recovered,
    tree: Key,
}

/// Checks the whole hive, and then loads it. A `Fault` has written nothing.
fn load_checked<S: Scheme, D: Disk>(alloc: Global, disk: &mut D) -> Result<Loaded, LoadStop>
    requires on { (D.state disk.old).on ≡ true }
    requires still { D.tells ≡ true → (D.state disk.old).flight ≡ [] }
    ensures exact { D.tells ≡ true → MatchResult result (λ l. IsFound S.stands (D.state disk.old).held l.found l.tree)
        (IsStandStop S.stands (D.state disk.old).held) }
    ensures sized { IfOk result (λ l. is_bins_size (length l.found.bins) ≡ true) }
    ensures valid { IfOk result (λ l. IsValid l.tree) }
    ensures still { D.tells ≡ true → OnOk result ((D.state disk.new).flight ≡ []) }
    ensures settled { D.tells ≡ true → IfOk result (λ l. S.settled (D.state disk.new).held l.found.base l.found.bins) }
    ensures crash { D.tells ≡ true → (base : Base) (bins : List ℕ) → IsKeptAs S.stands base bins (D.state disk.old).held
        → EachCrash (D.state disk.new) (IsKeptAs S.stands base bins) }
    ensures unwritten { D.tells ≡ true → AfterFault result (IsUntouched (D.state disk.old) (D.state disk.new)) }
    ensures goes { IsLoadOn (D.state disk.old) (D.state disk.new) result }
{
    let seen = S::look(alloc, disk)?;
    let tree = match tree_of(alloc, seen) {
        Ok(tree) => tree,
        Err(ReadStop::Fault(fault)) => return Err(LoadStop::Fault(fault)),
        Err(ReadStop::Memory) => return Err(LoadStop::Memory),
    };
    let found = S::load(alloc, disk)?;
    Ok(Loaded { found, tree })
}

/// Commits the changed tree, packed, and answers for the load after it.
fn commit_change<S: Scheme, D: Disk>(
    disk: &mut D,
    loaded: u32,
    mended: bool,
    base: &BaseBlock,
    old: &[u8],
    new: &[u8],
) -> Result<Changed, ChangeStop>
    requires on { (D.state disk.old).on ≡ true }
    requires still { D.tells ≡ true → (D.state disk.old).flight ≡ [] }
    requires settled { D.tells ≡ true → S.settled (D.state disk.old).held base.now old.now }
    requires sized { is_bins_size (length new.now) ≡ true }
    ensures answered { IfOk result (λ done. done ≡ committed_to loaded mended base.now) }
    ensures refused { IfErr result (IsCommitStop loaded mended) }
    ensures still { D.tells ≡ true → OnOk result ((D.state disk.new).flight ≡ []) }
    ensures settled { D.tells ≡ true → OnOk result (S.settled (D.state disk.new).held (closed_of base.now new.now 32) new.now) }
    ensures crash { D.tells ≡ true → EachCrash (D.state disk.new)
        (IsKeptAsEither S.stands base.now old.now (closed_of base.now new.now 32) new.now) }
    ensures goes { GoesOn (D.state disk.old) (D.state disk.new) (IsLost result) (IsFailed result) (IsLacking result) }
{
    match S::commit(disk, base, old, new, ROOT) {
        Ok(closed) => Ok(Changed {
            loaded,
            mended,
            committed: Some(closed.first),
        }),
        Err(CommitStop::PowerLost) => Err(ChangeStop::PowerLost {
            loaded: Some((loaded, mended)),
        }),
        Err(CommitStop::Device) => Err(ChangeStop::Device {
            loaded: Some((loaded, mended)),
        }),
        Err(CommitStop::Memory) => Err(ChangeStop::Memory),
    }
}

/// Changes what was loaded.
fn change_loaded<S: Scheme, D: Disk>(
    alloc: Global,
    disk: &mut D,
    loaded: &Loaded,
    number: Option<u32>,
) -> Result<Changed, ChangeStop>
    requires on { (D.state disk.old).on ≡ true }
    requires still { D.tells ≡ true → (D.state disk.old).flight ≡ [] }
    requires settled { D.tells ≡ true → S.settled (D.state disk.old).held loaded.now.found.base loaded.now.found.bins }
    requires sized { is_bins_size (length loaded.now.found.bins) ≡ true }
    requires valid { IsValid loaded.now.tree }
    requires holds { D.tells ≡ true → Holds loaded.now.found (held_state loaded.now.found loaded.now.tree) }
    ensures answers { D.tells ≡ true → (image : Image) → S.stands image ≡ Ok loaded.now.found
        → Answers S.stands image (D.state disk.new).held number result }
    ensures no_fault { (fault : HiveFault) → result ≡ Err (stops.Fault fault) → ⊥ }
    ensures still { D.tells ≡ true → OnOk result ((D.state disk.new).flight ≡ []) }
    ensures mended { D.tells ≡ true → IsDecided result → EachCrash (D.state disk.new) (StandsAfter S.stands loaded.now.found loaded.now.tree number) }
    ensures crash { D.tells ≡ true → EachCrash (D.state disk.new) (IsEitherOf S.stands loaded.now.found loaded.now.tree number) }
    ensures goes { GoesOn (D.state disk.old) (D.state disk.new) (IsLost result) (IsFailed result) (IsLacking result) }
{
    S::settled_is_clean();
    let Loaded { found, tree } = loaded;
    let base = &found.base;
    let (first, mended) = (base.first, found.dirty);
    let old = found.bins.as_slice();
    let next = plan_of(alloc, tree, base.version(), number)?;
    match next {
        Plan::Nothing => Ok(Changed {
            loaded: first,
            mended,
            committed: None,
        }),
        Plan::NoSelect => Err(ChangeStop::NoSelect {
            loaded: first,
            mended,
        }),
        Plan::Full => Err(ChangeStop::Full {
            loaded: first,
            mended,
        }),
        Plan::Pack(new) => {
            let packed = new.as_slice();
            commit_change::<S, D>(disk, first, mended, base, old, packed)
        }
    }
}

/// Checks two files down to the tree of what they stand for; an empty one is absent. Nothing is kept.
pub fn check_kept<S: Scheme>(alloc: Global, primary: &[u8], second: &[u8]) -> Result<(), ReadStop>
    ensures { ChecksFor S.stands (image_of primary.now second.now) result }
{
    let found = S::kept(alloc, primary, second)?;
    let _tree = tree_of(alloc, found)?;
    Ok(())
}

/// Gives `Select\Default` this number, from 1 on, and commits; without a number, or where it is there already, it
/// only loads. The disk is on and has nothing in flight. `Fault` is the first check of the whole hive that fails.
pub fn change_default<S: Scheme, D: Disk>(
    alloc: Global,
    disk: &mut D,
    number: Option<u32>,
) -> Result<Changed, ChangeStop>
    requires on { (D.state disk.old).on ≡ true }
    requires still { D.tells ≡ true → (D.state disk.old).flight ≡ [] }
    // What it answers, each field of it, and when each refusal comes.
    ensures answers { D.tells ≡ true → Answers S.stands (D.state disk.old).held (D.state disk.new).held number result }
    // A fault has written nothing.
    ensures unwritten { D.tells ≡ true → (fault : HiveFault) → result ≡ Err (stops.Fault fault)
        → IsUntouched (D.state disk.old) (D.state disk.new) }
    ensures still { D.tells ≡ true → OnOk result ((D.state disk.new).flight ≡ []) }
    // After an answer by the tree, whatever a cut leaves stands for the tree as it is to be, and there is nothing to repair.
    ensures mended { D.tells ≡ true → IsDecided result → (found : RecoveredBook) (tree : Tree) → IsFound S.stands (D.state disk.old).held found tree
        → EachCrash (D.state disk.new) (StandsAfter S.stands found tree number) }
    // At every exit a cut leaves what stands for the tree as it was, or as it is to be, be sectors in flight torn or not.
    ensures crash { D.tells ≡ true → (found : RecoveredBook) (tree : Tree) → IsFound S.stands (D.state disk.old).held found tree
        → EachCrash (D.state disk.new) (IsEitherOf S.stands found tree number) }
    ensures goes { GoesOn (D.state disk.old) (D.state disk.new) (IsLost result) (IsFailed result) (IsLacking result) }
{
    let loaded = load_checked::<S, D>(alloc, disk)?;
    change_loaded::<S, D>(alloc, disk, &loaded, number)
}
