//! What is to be done with a tree whose default set is to change.

ghost use Rattle.std.specs.Prelude.{◌≡◌, ◌≤◌, true, map, is_some, length, IfOk, IsErrOf};
ghost use Rattle.reg_tree.specs.declared.stop.EditStop.TheVariants.{Full};
ghost use Rattle.hive_model.specs.Edit.{most_bulk};
ghost use Rattle.hive_model.specs.Base.{is_bins_size};
ghost use Rattle.hive_model.specs.Size.{bulk_of};
ghost use Rattle.hive_model.specs.Tree.{find_key};
ghost use Rattle.hive_model.specs.Valid.{IsValid};
ghost use Rattle.reg_tree.specs.Makes.{step_of};
ghost use Rattle.hive_alt.specs.Changes.{select_path, is_number, change_of, change_in, changed, unless_large, defaulted};
ghost use Rattle.hive_alt.specs.Plans as book;
ghost use Rattle.hive_alt.specs.Plans.{IsPlanOf, HeldAs};

use hive_cells::read_cells;
use hive_log::Recovered;
use hive_pack::pack;
use hive_read::read_tree;
use nt_bytes::{Bytes, HiveVersion, Names, ReadStop, Units};
use nt_names::startup_names::{DEFAULT, SELECT};
use reg_tree::{EditStop, Key, Steps, TreeStep};
use std::alloc::{AllocError, Global};

/// The type of a number of 32 bits.
const DWORD: u32 = 4;

/// What is to be done: nothing, nothing for want of `Select` or of room, or a commit of the packed tree.
#[derive(Drop)]
pub(crate) enum Plan {
    Nothing,
    NoSelect,
    Full,
    Pack(Bytes),
}

/// The tree of what was recovered, or the first fault of its bins, and then of the tree in them.
pub(crate) fn tree_of(alloc: Global, found: Recovered) -> Result<Key, ReadStop>
    requires sized { is_bins_size (length found.bins) ≡ true }
    ensures exact { HeldAs found result }
    ensures valid { IfOk result (λ t. IsValid t) }
{
    let base = found.base;
    let cells = read_cells(alloc, found.bins)?;
    read_tree(alloc, &cells, base.root, base.version())
}

/// The path from the root to `Select`.
fn path_to_select(alloc: Global) -> Result<Names, AllocError>
    ensures { IfOk result (λ p. p ≡ select_path) }
{
    let mut path = Names::new(alloc);
    path.push(Units::from_slice(alloc, &SELECT)?)?;
    Ok(path)
}

/// The step that sets the number.
fn default_steps(alloc: Global, number: u32) -> Result<Steps, AllocError>
    ensures { IfOk result (λ s. map step_of s ≡ book.default_steps number) }
{
    let mut bytes = Bytes::new(alloc);
    bytes.put_u32(number)?;
    let mut steps = Steps::new(alloc);
    steps.push(TreeStep::SetValue {
        path: path_to_select(alloc)?,
        name: Units::from_slice(alloc, &DEFAULT)?,
        kind: DWORD,
        bytes,
    })?;
    Ok(steps)
}

/// Whether a number is there and is this one.
fn is_number(number: u32, found: Option<u32>) -> bool
    ensures { result ≡ is_number number found }
{
    match found {
        None => false,
        Some(n) => n == number,
    }
}

/// A changed tree, packed.
fn plan_pack(alloc: Global, work: &Key, version: HiveVersion) -> Result<Plan, EditStop>
    requires valid { IsValid work.now }
    requires room { bulk_of version work.now ≤ most_bulk }
    ensures plan { IfOk result (IsPlanOf version (changed work.now)) }
    ensures full { IsErrOf result Full → ⊥ }
{
    let bytes = pack(alloc, work, version)?;
    Ok(Plan::Pack(bytes))
}

/// The changed tree, packed, unless it is too large. The key `Select` is there.
fn plan_edit(alloc: Global, tree: &Key, version: HiveVersion, number: u32) -> Result<Plan, EditStop>
    requires valid { IsValid tree.now }
    requires there { is_some (find_key select_path tree.now) ≡ true }
    ensures plan { IfOk result (IsPlanOf version (unless_large version (defaulted number tree.now))) }
    ensures full { IsErrOf result Full → ⊥ }
{
    let steps = default_steps(alloc, number)?;
    let mut work = tree.copy(alloc)?;
    match work.apply(alloc, steps, version) {
        Ok(()) => plan_pack(alloc, &work, version),
        Err(EditStop::Full) => Ok(Plan::Full),
        Err(stop) => Err(stop),
    }
}

/// By the key `Select`.
fn plan_number(
    alloc: Global,
    tree: &Key,
    version: HiveVersion,
    number: u32,
) -> Result<Plan, EditStop>
    requires valid { IsValid tree.now }
    ensures { IfOk result (IsPlanOf version (change_in version tree.now number (find_key select_path tree.now))) }
{
    let path = path_to_select(alloc)?;
    match tree.find(&path) {
        None => Ok(Plan::NoSelect),
        Some(key) => {
            if is_number(number, key.dword(&DEFAULT)) {
                Ok(Plan::Nothing)
            } else {
                plan_edit(alloc, tree, version, number)
            }
        }
    }
}

/// What is to be done with a tree; without a number nothing.
pub(crate) fn plan_of(
    alloc: Global,
    tree: &Key,
    version: HiveVersion,
    number: Option<u32>,
) -> Result<Plan, EditStop>
    requires valid { IsValid tree.now }
    ensures { IfOk result (IsPlanOf version (change_of version tree.now number)) }
{
    match number {
        None => Ok(Plan::Nothing),
        Some(number) => plan_number(alloc, tree, version, number),
    }
}
