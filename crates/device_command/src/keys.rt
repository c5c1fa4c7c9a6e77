//! The keys of a control set that devices are judged by, read from the hive's cells.

ghost use Rattle.std.specs.Prelude.{◌≡◌, ◌≤◌, [], ◌∷◌, IfOk, codes};
ghost use Rattle.hive_model.specs.Tree.{find_key};
ghost use Rattle.start_model.specs.Sets.{set_name};
ghost use Rattle.device_rule.specs.Report.{keys_of};
ghost use Rattle.device_command.specs.Keys.{keys_at};

use device_rule::{CLASS, CRITICAL_DEVICE_DATABASE, ENUM, SetKeys};
use hive_edit::HiveBytes;
use nt_bytes::{Names, Units};
use nt_names::startup_names::{CONTROL, SERVICES};
use reg_tree::Key;
use select_keys::set_path;
use std::alloc::{AllocError, Global};

/// A child of the set of a number, with all below it.
fn key_in(
    alloc: Global,
    hive: &HiveBytes,
    number: u32,
    name: &[u16],
) -> Result<Option<Key>, AllocError>
    requires { number ≤ 999 }
    ensures { IfOk result (λ k. k ≡ find_key (set_name number ∷ name.now ∷ []) hive.now.tree) }
{
    let mut path = set_path(alloc, number)?;
    path.push(Units::from_slice(alloc, name)?)?;
    hive.subtree(alloc, &path)
}

/// A child of the key `Control` of the set of a number, with all below it.
fn control_in(
    alloc: Global,
    hive: &HiveBytes,
    number: u32,
    name: &[u16],
) -> Result<Option<Key>, AllocError>
    requires { number ≤ 999 }
    ensures { IfOk result (λ k. k ≡ find_key (set_name number ∷ codes "Control" ∷ name.now ∷ []) hive.now.tree) }
{
    let mut path = set_path(alloc, number)?;
    path.push(Units::from_slice(alloc, &CONTROL)?)?;
    path.push(Units::from_slice(alloc, name)?)?;
    hive.subtree(alloc, &path)
}

/// The four keys of the set of a number.
fn keys_at(alloc: Global, hive: &HiveBytes, number: u32) -> Result<SetKeys, AllocError>
    requires { number ≤ 999 }
    ensures { IfOk result (λ k. k ≡ keys_at hive.now.tree number) }
{
    Ok(SetKeys {
        services: key_in(alloc, hive, number, &SERVICES)?,
        devices: key_in(alloc, hive, number, &ENUM)?,
        classes: control_in(alloc, hive, number, &CLASS)?,
        database: control_in(alloc, hive, number, &CRITICAL_DEVICE_DATABASE)?,
    })
}

/// The same, where the hive has a set of this number.
#[tactic(auto, using(crate::proofs::KeyLemmas::keys_below, crate::proofs::KeyLemmas::keys_above, crate::proofs::KeyLemmas::keys_missing))]
pub(crate) fn keys_of(
    alloc: Global,
    hive: &HiveBytes,
    number: u32,
) -> Result<Option<SetKeys>, AllocError>
    ensures { IfOk result (λ k. k ≡ keys_of hive.now.tree number) }
{
    if number < 1 || 999 < number {
        return Ok(None);
    }
    let set = set_path(alloc, number)?;
    if !hive.has(&set) {
        return Ok(None);
    }
    Ok(Some(keys_at(alloc, hive, number)?))
}
