//! The list of a safe mode.

ghost use Rattle.std.specs.Prelude.{◌≡◌, ◌||◌, [], ◌∷◌, map, codes, false, IfOk};
ghost use Rattle.std.specs.Option.{option_copied, option_map_or};
ghost use Rattle.hive_model.specs.Tree.{head, children, find_key, is_named};
ghost use Rattle.std.specs.List.{list_any};
ghost use Rattle.safe_boot.specs.Listed.{list_name, listed_names, is_listed};

use crate::mode::SafeMode;
use boot_phases::service_entries::Entry;
use nt_bytes::{Names, Units, same_folded};
use nt_names::name_places::NamePlaces;
use nt_names::startup_names::{CONTROL, MINIMAL, NETWORK, SAFE_BOOT};
use reg_tree::Key;
use std::alloc::{AllocError, Global};

/// Whether the mode's list in the control set has the entry, by its name or by its group. Without the
/// list nothing is listed.
pub fn listed(set: &Key, mode: SafeMode, entry: &Entry) -> bool
    ensures { result ≡ is_listed set.now mode entry.now }
{
    let keys = listed_keys(set, mode);
    is_among(keys, entry.name.as_slice(), entry.group.as_ref())
}

/// The names of the mode's list, found without a scan. Takes n log n time in their number.
pub(crate) fn read_list(alloc: Global, set: &Key, mode: SafeMode) -> Result<NamePlaces, AllocError>
    ensures { IfOk result (λ names. names ≡ listed_names set.now mode) }
{
    let names = names_of(alloc, listed_keys(set, mode))?;
    NamePlaces::new(alloc, names)
}

/// The keys of the mode's list.
fn listed_keys(set: &Key, mode: SafeMode) -> &[Key]
    ensures { result.now ≡ option_map_or children (find_key (codes "Control" ∷ codes "SafeBoot" ∷ list_name mode ∷ []) set.now) [] }
{
    list_in(set, mode).map_or(&[], |list| list.subkeys())
}

fn list_in(set: &Key, mode: SafeMode) -> Option<&Key>
    ensures { option_copied result ≡ find_key (codes "Control" ∷ codes "SafeBoot" ∷ list_name mode ∷ []) set.now }
{
    let lists = lists_in(set)?;
    match mode {
        SafeMode::Minimal => lists.child(&MINIMAL),
        SafeMode::Network => lists.child(&NETWORK),
    }
}

/// The key that has the lists.
fn lists_in(set: &Key) -> Option<&Key>
    ensures { option_copied result ≡ find_key (codes "Control" ∷ codes "SafeBoot" ∷ []) set.now }
{
    set.child(&CONTROL)?.child(&SAFE_BOOT)
}

/// Whether one of the keys has this name, or that of the group.
fn is_among(keys: &[Key], name: &[u16], group: Option<&Units>) -> bool
    ensures { result ≡ (list_any (is_named name.now) keys.now || option_map_or (λ name. list_any (is_named name) keys.now) (option_copied group.entry) false) }
{
    has_key(keys, name) || has_group(keys, group)
}

fn has_key(keys: &[Key], name: &[u16]) -> bool
    ensures { result ≡ list_any (is_named name.now) keys.now }
{
    keys.iter().any(|key| same_folded(name, key.name()))
}

fn has_group(keys: &[Key], group: Option<&Units>) -> bool
    ensures { result ≡ option_map_or (λ name. list_any (is_named name) keys.now) (option_copied group.entry) false }
{
    match group {
        Some(name) => has_key(keys, name.as_slice()),
        None => false,
    }
}

/// The names of the keys, in their order.
fn names_of(alloc: Global, keys: &[Key]) -> Result<Names, AllocError>
    ensures { IfOk result (λ names. names ≡ map (λ t. (head t).name) keys.now) }
{
    let mut names = Names::new(alloc);
    for key in keys {
        names.push(Units::from_slice(alloc, key.name())?)?;
    }
    Ok(names)
}
