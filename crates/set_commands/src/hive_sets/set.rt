//! What a control set is judged and started by, read from the hive's cells.

ghost use Rattle.std.specs.Prelude.{◌≡◌, [], ◌∷◌, ◌++◌, IfOk, codes};
ghost use Rattle.hive_model.specs.Tree.{find_key};
ghost use Rattle.set_commands.specs.hive_sets.Reads.{control_at, set_at};

use crate::hive_sets::keys::of_two;
use hive_edit::HiveBytes;
use nt_bytes::{Names, Units};
use nt_names::startup_names::{CONTROL, GROUP_ORDER_LIST, SERVICE_GROUP_ORDER, SERVICES};
use reg_tree::Key;
use std::alloc::{AllocError, Global};

/// The path from the root to the child of a name.
pub(crate) fn path_to(alloc: Global, name: &[u16]) -> Result<Names, AllocError>
    ensures { IfOk result (λ p. p ≡ name.now ∷ []) }
{
    below(alloc, Names::new(alloc), name)
}

/// The path with one name more.
fn below(alloc: Global, path: Names, name: &[u16]) -> Result<Names, AllocError>
    ensures { IfOk result (λ p. p ≡ path ++ name.now ∷ []) }
{
    let mut path = path;
    path.push(Units::from_slice(alloc, name)?)?;
    Ok(path)
}

/// A list below the key `Control` of the set of a name.
fn list_in(
    alloc: Global,
    hive: &HiveBytes,
    name: &[u16],
    list: &[u16],
) -> Result<Option<Key>, AllocError>
    ensures { IfOk result (λ k. k ≡ find_key (name.now ∷ codes "Control" ∷ list.now ∷ []) hive.now.tree) }
{
    let control = below(alloc, path_to(alloc, name)?, &CONTROL)?;
    let path = below(alloc, control, list)?;
    hive.subtree(alloc, &path)
}

/// The key `Control` of the set of a name, with the order of groups and tags alone.
fn control_at(alloc: Global, hive: &HiveBytes, name: &[u16]) -> Result<Key, AllocError>
    ensures { IfOk result (λ k. k ≡ control_at hive.now.tree name.now) }
{
    let groups = list_in(alloc, hive, name, &SERVICE_GROUP_ORDER)?;
    let tags = list_in(alloc, hive, name, &GROUP_ORDER_LIST)?;
    of_two(alloc, &CONTROL, groups, tags)
}

/// The key `Services` of the set of a name.
fn services_at(alloc: Global, hive: &HiveBytes, name: &[u16]) -> Result<Option<Key>, AllocError>
    ensures { IfOk result (λ k. k ≡ find_key (name.now ∷ codes "Services" ∷ []) hive.now.tree) }
{
    let path = below(alloc, path_to(alloc, name)?, &SERVICES)?;
    hive.subtree(alloc, &path)
}

/// The set of a name, with the order of groups and tags and its services alone.
pub(crate) fn set_at(alloc: Global, hive: &HiveBytes, name: &[u16]) -> Result<Key, AllocError>
    ensures { IfOk result (λ k. k ≡ set_at hive.now.tree name.now) }
{
    let control = control_at(alloc, hive, name)?;
    let services = services_at(alloc, hive, name)?;
    of_two(alloc, name, Some(control), services)
}
