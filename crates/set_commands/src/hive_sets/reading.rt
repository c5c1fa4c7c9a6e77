//! The part of a hive's tree that the sets of some numbers need.

ghost use Rattle.std.specs.Prelude.{◌≡◌, map, IfOk};
ghost use Rattle.set_commands.specs.hive_sets.Parts.{is_set, is_wanted, hive_part};
ghost use Rattle.set_commands.specs.hive_sets.Reads.{whole_at, child_at};
ghost use Rattle.set_commands.specs.hive_sets.Shows.{ShowsHive};

use crate::hive_sets::keys::{bare, named};
use crate::hive_sets::set::{path_to, set_at};
use hive_edit::HiveBytes;
use nt_bytes::{Names, Units, same_folded};
use nt_names::startup_names::SELECT;
use reg_tree::{Key, Keys};
use select_keys::set_name;
use std::alloc::{AllocError, Global};

/// Whether the name is that of the set of a number.
fn is_set(alloc: Global, name: &[u16], number: u32) -> Result<bool, AllocError>
    ensures { IfOk result (λ b. b ≡ is_set name.now number) }
{
    if 999 < number {
        return Ok(false);
    }
    let set = set_name(alloc, number)?;
    Ok(same_folded(set.as_slice(), name))
}

/// Whether the name is that of the set of one of the numbers.
fn is_wanted(alloc: Global, numbers: &[u32], name: &[u16]) -> Result<bool, AllocError>
    ensures { IfOk result (λ b. b ≡ is_wanted numbers.now name.now) }
{
    for number in numbers {
        if is_set(alloc, name, *number)? {
            return Ok(true);
        }
    }
    Ok(false)
}

/// The child of a name with all below it.
fn whole_at(alloc: Global, hive: &HiveBytes, name: &[u16]) -> Result<Key, AllocError>
    ensures { IfOk result (λ k. k ≡ whole_at hive.now.tree name.now) }
{
    let path = path_to(alloc, name)?;
    match hive.subtree(alloc, &path)? {
        Some(key) => Ok(key),
        None => named(alloc, name),
    }
}

/// The part of the child of a name.
fn child_at(
    alloc: Global,
    hive: &HiveBytes,
    numbers: &[u32],
    name: &[u16],
) -> Result<Key, AllocError>
    ensures { IfOk result (λ k. k ≡ child_at hive.now.tree numbers.now name.now) }
{
    if is_wanted(alloc, numbers, name)? {
        return set_at(alloc, hive, name);
    }
    if same_folded(&SELECT, name) {
        return whole_at(alloc, hive, name);
    }
    named(alloc, name)
}

/// The parts of the children of these names.
fn children_at(
    alloc: Global,
    hive: &HiveBytes,
    numbers: &[u32],
    names: &[Units],
) -> Result<Keys, AllocError>
    ensures { IfOk result (λ k. k ≡ map (child_at hive.now.tree numbers.now) names.now) }
{
    let mut keys = Keys::new(alloc);
    for name in names {
        keys.push(child_at(alloc, hive, numbers, name.as_slice())?)?;
    }
    Ok(keys)
}

/// The part of a hive's tree that the sets of these numbers need: the key `Select`, of each of the sets the services and the order of
/// groups and tags, and the names of the other children of the root. No key beside these is read.
pub fn part(alloc: Global, hive: &HiveBytes, numbers: &[u32]) -> Result<Key, AllocError>
    ensures exact { IfOk result (λ k. k ≡ hive_part numbers.now hive.now.tree) }
    ensures shows { IfOk result (ShowsHive numbers.now hive.now.tree) }
{
    // The hive's tree stands at its root, and can be held.
    let _root = hive.root();
    let names = hive.names_below(alloc, &Names::new(alloc))?;
    let children = children_at(alloc, hive, numbers, names.as_slice())?;
    Ok(bare(alloc, Units::new(alloc), children))
}
