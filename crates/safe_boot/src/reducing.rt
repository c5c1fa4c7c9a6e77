//! What a safe mode leaves of a control set.

ghost use Rattle.std.specs.Prelude.{◌≡◌, ◌&&◌, ◌||◌, ◌==◌, false, not, filter, codes, IfOk, if◌then◌else◌};
ghost use Rattle.std.specs.Option.{option_map_or};
ghost use Rattle.hive_model.specs.Tree.{head, find_dword, find_string, is_named};
ghost use Rattle.hive_model.specs.Edit.{of_children, at_first};
ghost use Rattle.start_model.specs.Entries.{entry_of, is_driver, named_group};
ghost use Rattle.safe_boot.specs.Images.{image_of};
ghost use Rattle.safe_boot.specs.Listed.{has_name, has_file, is_among, stays, reduced_of};

use crate::images::{image_of, is_driver_key};
use crate::listing::read_list;
use crate::mode::SafeMode;
use nt_bytes::{Bytes, Units, same_folded};
use nt_names::name_places::NamePlaces;
use nt_names::startup_names::{GROUP, SERVICES, START, TYPE};
use reg_tree::{Key, Keys, Value, Values};
use std::alloc::{AllocError, Global};

/// The control set without the services that the mode leaves out: the children of `Services` that are entries with a
/// Start other than 0 and are not listed, a driver by its image too where images count. Takes n log n time in the services and the
/// names of the list.
pub fn reduce(alloc: Global, set: &Key, mode: SafeMode, images: bool) -> Result<Key, AllocError>
    ensures { IfOk result (λ k. k ≡ reduced_of set.now mode images) }
{
    let names = read_list(alloc, set, mode)?;
    let children = reduced_children(alloc, set.subkeys(), &names, images)?;
    with_children(alloc, set, children)
}

/// The children of a set, of which the first that is named `Services` is reduced.
fn reduced_children(
    alloc: Global,
    keys: &[Key],
    names: &NamePlaces,
    images: bool,
) -> Result<Keys, AllocError>
    ensures { IfOk result (λ ks. ks ≡ at_first (is_named (codes "Services")) (of_children (filter (stays images names.now))) keys.now) }
{
    let mut made = Keys::new(alloc);
    let mut found = false;
    for key in keys {
        let reduces = reduces_at(found, key);
        made.push(reduced_where(alloc, key, names, images, reduces)?)?;
        found |= reduces;
    }
    Ok(made)
}

/// Whether the key is the first of this name, where `found` says that one was before it.
fn reduces_at(found: bool, key: &Key) -> bool
    ensures { result ≡ (not found && is_named (codes "Services") key.now) }
{
    !found && has_services(key)
}

fn has_services(key: &Key) -> bool
    ensures { result ≡ is_named (codes "Services") key.now }
{
    same_folded(&SERVICES, key.name())
}

/// The key with those children that stay, where it is to be reduced, or else as it is.
fn reduced_where(
    alloc: Global,
    key: &Key,
    names: &NamePlaces,
    images: bool,
    reduces: bool,
) -> Result<Key, AllocError>
    ensures { IfOk result (λ k. k ≡ (if reduces then of_children (filter (stays images names.now)) key.now else key.now)) }
{
    if reduces {
        let children = staying(alloc, key.subkeys(), names, images)?;
        with_children(alloc, key, children)
    } else {
        key.copy(alloc)
    }
}

/// Copies of the keys that stay, in their order.
fn staying(
    alloc: Global,
    keys: &[Key],
    names: &NamePlaces,
    images: bool,
) -> Result<Keys, AllocError>
    ensures { IfOk result (λ ks. ks ≡ filter (stays images names.now) keys.now) }
{
    let mut made = Keys::new(alloc);
    for key in keys {
        if stays(alloc, key, names, images)? {
            made.push(key.copy(alloc)?)?;
        }
    }
    Ok(made)
}

/// Whether a child of `Services` stays: it is no entry, its Start is 0, or it is listed.
fn stays(alloc: Global, key: &Key, names: &NamePlaces, images: bool) -> Result<bool, AllocError>
    ensures { IfOk result (λ b. b ≡ stays images names.now key.now) }
{
    match late_start(key) {
        true => is_key_listed(alloc, key, names, images),
        false => Ok(true),
    }
}

/// Whether the key is an entry with a Start other than 0.
fn late_start(key: &Key) -> bool
    ensures { result ≡ option_map_or (λ e. not (e.start == 0)) (entry_of key.now) false }
{
    match key.dword(&START) {
        Some(start) => start != 0 && key.dword(&TYPE).is_some(),
        None => false,
    }
}

/// Whether the names have the key, by its image where images count, or by its own name or that of its group.
fn is_key_listed(
    alloc: Global,
    key: &Key,
    names: &NamePlaces,
    images: bool,
) -> Result<bool, AllocError>
    ensures { IfOk result (λ b. b ≡ ((images && (option_map_or is_driver (find_dword (codes "Type") key.now) false && has_file names.now (image_of key.now)))
        || is_among names.now (head key.now).name (named_group (find_string (codes "Group") key.now)))) }
{
    match images && is_driver_key(key) {
        true => is_driver_listed(alloc, key, names),
        false => is_plainly_listed(alloc, key, names),
    }
}

/// Whether the names have the image of a driver's key, or the key's own name or that of its group.
fn is_driver_listed(alloc: Global, key: &Key, names: &NamePlaces) -> Result<bool, AllocError>
    ensures { IfOk result (λ b. b ≡ (has_file names.now (image_of key.now)
        || is_among names.now (head key.now).name (named_group (find_string (codes "Group") key.now)))) }
{
    let image = image_of(alloc, key)?;
    match has_file(names, &image) {
        true => Ok(true),
        false => is_plainly_listed(alloc, key, names),
    }
}

/// Whether the names have the key's own name, or that of the group that it has as an entry.
fn is_plainly_listed(alloc: Global, key: &Key, names: &NamePlaces) -> Result<bool, AllocError>
    ensures { IfOk result (λ b. b ≡ is_among names.now (head key.now).name (named_group (find_string (codes "Group") key.now))) }
{
    let group = key.text(alloc, &GROUP)?;
    Ok(is_among(names, key.name(), &group))
}

/// Whether the names have this name, or that of the group.
fn is_among(names: &NamePlaces, name: &[u16], group: &Option<Units>) -> bool
    ensures { result ≡ is_among names.now name.now (named_group group.now) }
{
    has_name(names, name) || has_group(names, group)
}

fn has_name(names: &NamePlaces, name: &[u16]) -> bool
    ensures { result ≡ has_name names.now name.now }
{
    names.place_of(name).is_some()
}

/// Whether the names have this file. An empty one they don't.
fn has_file(names: &NamePlaces, file: &Units) -> bool
    ensures { result ≡ has_file names.now file.now }
{
    !file.is_empty() && has_name(names, file.as_slice())
}

/// Whether the names have that of the group. A group with an empty name is none.
fn has_group(names: &NamePlaces, group: &Option<Units>) -> bool
    ensures { result ≡ option_map_or (has_name names.now) (named_group group.now) false }
{
    match group {
        Some(name) => !name.is_empty() && has_name(names, name.as_slice()),
        None => false,
    }
}

/// The key with other children.
fn with_children(alloc: Global, key: &Key, children: Keys) -> Result<Key, AllocError>
    ensures { IfOk result (λ k. k ≡ of_children (λ _. children) key.now) }
{
    Ok(Key {
        name: Units::from_slice(alloc, key.name())?,
        flags: key.flags,
        stamp: key.stamp,
        class: Bytes::from_slice(alloc, key.class())?,
        security: Bytes::from_slice(alloc, key.security())?,
        values: copied(alloc, key.items())?,
        children,
    })
}

/// A copy of each value, in order.
fn copied(alloc: Global, values: &[Value]) -> Result<Values, AllocError>
    ensures { IfOk result (λ vs. vs ≡ values.now) }
{
    let mut made = Values::new(alloc);
    for value in values {
        made.push(value.copy(alloc)?)?;
    }
    Ok(made)
}
