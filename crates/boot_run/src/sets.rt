//! The control sets of a session, which lends no tree.

ghost use Rattle.std.specs.Prelude.{◌≡◌, true, length, Some, IfOk};
ghost use Rattle.std.specs.Option.{unwrap_or};
ghost use Rattle.hive_model.specs.Valid.{HoldsKeys};
ghost use Rattle.hive_store.specs.Found.{found_dword};
ghost use Rattle.start_model.specs.Entries.{services_of};
ghost use Rattle.start_model.specs.Sets.{select_numbers_of, usable_numbers_of, set_of, is_usable};
ghost use Rattle.start_model.specs.Starter.{good_is_usable, no_set};
ghost use Rattle.boot_run.specs.Begins.{IsTaken};
ghost use Rattle.boot_run.specs.Kept.{current_set, AreRead};

use boot_machine::boot_machine::SetLists;
use hive_store::Hive;
use nt_bytes::{Names, Units};
use nt_names::startup_names::{CURRENT, DEFAULT, FAILED, LAST_KNOWN_GOOD, SERVICES};
use reg_tree::Key;
use select_keys::{SelectNumbers, TakenNumbers, select_path, set_path, sets_named};
use std::alloc::{AllocError, Global};

/// A number of the key at the path, 0 where it is absent or no DWORD.
fn number_in(hive: &Hive, path: &Names, name: &[u16]) -> u32
    ensures { result ≡ unwrap_or (found_dword path.now name.now hive.now.tree) 0 }
{
    hive.dword(path, name).unwrap_or(0)
}

/// The four numbers of `Select` in the live tree.
pub(crate) fn live_numbers(alloc: Global, hive: &Hive) -> Result<SelectNumbers, AllocError>
    ensures { IfOk result (λ numbers. numbers ≡ select_numbers_of hive.now.tree) }
{
    let path = select_path(alloc)?;
    Ok(SelectNumbers {
        current: number_in(hive, &path, &CURRENT),
        default: number_in(hive, &path, &DEFAULT),
        failed: number_in(hive, &path, &FAILED),
        good: number_in(hive, &path, &LAST_KNOWN_GOOD),
    })
}

/// The numbers of the sets of the live tree.
pub(crate) fn live_sets(alloc: Global, hive: &Hive) -> Result<TakenNumbers, AllocError>
    ensures { IfOk result (λ taken. taken ≡ usable_numbers_of hive.now.tree) }
{
    let names = hive.names_below(alloc, &Names::new(alloc))?;
    Ok(sets_named(names.as_slice()))
}

/// Whether the number names a set of the live tree.
fn is_usable(alloc: Global, hive: &Hive, number: u32) -> Result<bool, AllocError>
    ensures { IfOk result (λ usable. usable ≡ is_usable hive.now.tree number) }
{
    if number < 1 || 999 < number {
        return Ok(false);
    }
    let path = set_path(alloc, number)?;
    Ok(hive.has(&path))
}

/// Whether LastKnownGood names a set of the live tree.
pub(crate) fn good_is_usable(alloc: Global, hive: &Hive) -> Result<bool, AllocError>
    ensures { IfOk result (λ usable. usable ≡ good_is_usable hive.now.tree) }
{
    let path = select_path(alloc)?;
    let number = number_in(hive, &path, &LAST_KNOWN_GOOD);
    is_usable(alloc, hive, number)
}

/// A copy of the set of this number, which must be there. No hive holds a key that could not be in one.
pub(crate) fn live_set(alloc: Global, hive: &Hive, number: u32) -> Result<Key, AllocError>
    requires { is_usable hive.now.tree number ≡ true }
    ensures set { IfOk result (λ set. set_of hive.now.tree number ≡ Some set) }
    ensures held { IfOk result HoldsKeys }
{
    let path = set_path(alloc, number)?;
    match hive.subtree(alloc, &path)? {
        Some(set) => Ok(set),
        None => unreachable!(),
    }
}

/// The lists of the current set, whose number this is.
pub(crate) fn live_lists(alloc: Global, hive: &Hive, number: u32) -> Result<SetLists, AllocError>
    requires { IsTaken hive.now.tree number }
    ensures { IfOk result (AreRead (current_set hive.now.tree)) }
{
    let set = live_set(alloc, hive, number)?;
    SetLists::read(alloc, &set)
}

/// How many keys are below `Services` of the set of this number, which must be there. No key is copied.
pub(crate) fn count_services(alloc: Global, hive: &Hive, number: u32) -> Result<usize, AllocError>
    requires { is_usable hive.now.tree number ≡ true }
    ensures { IfOk result (λ n. n ≡ length (services_of (unwrap_or (set_of hive.now.tree number) no_set))) }
{
    let mut path = set_path(alloc, number)?;
    path.push(Units::from_slice(alloc, &SERVICES)?)?;
    let names = hive.names_below(alloc, &path)?;
    Ok(names.len())
}
