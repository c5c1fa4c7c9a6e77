//! An edit of a hive on a disk, and its commit.

ghost use Rattle.std.specs.Prelude.{◌≡◌, ◌≤◌, true, false, [], length, map, IfOk, IfSome, OnOk};
ghost use Rattle.hive_model.specs.Base.{version_of};
ghost use Rattle.hive_model.specs.Limits.{most_file};
ghost use Rattle.hive_model.specs.Load.{Loads, state_of};
ghost use Rattle.hive_commit.specs.Commits.{IsCleanWith};
ghost use Rattle.nt_edge.specs.Disk.{new_state};
ghost use Rattle.reg_tree.specs.Makes.{step_of};
ghost use Rattle.library_example.specs.Changes.{change, IsChanged, IsEdited};

use hive_store::Hive;
use mem_edge::MemDisk;
use nt_bytes::{Bytes, narrow};
use nt_edge::{Bench, Disk, DiskStop, HiveFile};
use reg_tree::{Steps, TreeStep};
use select_keys::select_path;
use std::alloc::{AllocError, Global};

/// The longest file that a disk takes, in bytes.
const MOST: usize = 33_554_432;

/// The edit that makes 2 the default set.
fn second_set(alloc: Global) -> Result<Steps, AllocError>
    ensures { IfOk result (λ steps. map step_of steps ≡ change) }
{
    let mut steps = Steps::new(alloc);
    steps.push(TreeStep::SetValue {
        path: select_path(alloc)?,
        name: narrow(alloc, b"Default")?,
        kind: 4,
        bytes: Bytes::from_slice(alloc, &[2, 0, 0, 0])?,
    })?;
    Ok(steps)
}

/// Commits a hive, and answers its new number.
fn write<D: Disk>(hive: Hive, disk: &mut D) -> Option<u32>
    requires { IsCleanWith D.tells (D.state disk.old) hive.base hive.bins }
    ensures { D.tells ≡ true → IfSome result
        (λ number. Loads (D.state disk.new).held (state_of hive.tree number (version_of hive.base.minor)) false) }
{
    match hive.commit(disk) {
        Ok((_hive, number)) => Some(number),
        Err(_) => None,
    }
}

/// Makes the steps of the edit in a hive, and commits it.
fn make<D: Disk>(alloc: Global, mut hive: Hive, steps: Steps, disk: &mut D) -> Option<u32>
    requires clean { IsCleanWith D.tells (D.state disk.old) hive.base hive.bins }
    requires steps { map step_of steps ≡ change }
    ensures { D.tells ≡ true → IfSome result (IsEdited hive (D.state disk.new).held) }
{
    match hive.apply(alloc, steps) {
        Ok(()) => write(hive, disk),
        Err(_) => None,
    }
}

/// Edits a hive, and commits it.
fn edit<D: Disk>(alloc: Global, hive: Hive, disk: &mut D) -> Option<u32>
    requires { IsCleanWith D.tells (D.state disk.old) hive.base hive.bins }
    ensures { D.tells ≡ true → IfSome result (IsEdited hive (D.state disk.new).held) }
{
    match second_set(alloc) {
        Ok(steps) => make(alloc, hive, steps, disk),
        Err(_) => None,
    }
}

/// Loads the hive of a disk, edits it and commits it.
fn change_on<D: Disk>(alloc: Global, disk: &mut D) -> Option<u32>
    requires on { (D.state disk.old).on ≡ true }
    requires still { D.tells ≡ true → (D.state disk.old).flight ≡ [] }
    ensures { D.tells ≡ true → IfSome result (IsChanged (D.state disk.old).held (D.state disk.new).held) }
{
    match Hive::load(alloc, disk) {
        Ok((hive, _was_dirty)) => edit(alloc, hive, disk),
        Err(_) => None,
    }
}

/// Gives a new disk the hive, and turns it on.
fn wake<B: Bench>(hive: &[u8], disk: &mut B) -> Result<(), DiskStop>
    requires fresh { B.state disk.old ≡ new_state }
    requires few { length hive.now ≤ most_file }
    ensures on { OnOk result ((B.state disk.new).on ≡ true) }
    ensures still { OnOk result ((B.state disk.new).flight ≡ []) }
{
    disk.place(HiveFile::Primary, hive)?;
    disk.power_on()
}

/// Edits a hive and commits it on a disk in memory. It answers the number of the commit.
pub fn commit(alloc: Global, hive: &[u8]) -> Option<u32> {
    if MOST < hive.len() {
        return None;
    }
    let mut disk = MemDisk::new(alloc);
    match wake(hive, &mut disk) {
        Ok(()) => change_on(alloc, &mut disk),
        Err(_) => None,
    }
}
