//! A set with an entry off.

ghost use Rattle.std.specs.Prelude.{◌≡◌, ◌&&◌, not, codes, IfOk, if◌then◌else◌};
ghost use Rattle.hive_model.specs.Tree.{is_named, is_item};
ghost use Rattle.hive_model.specs.Valid.{HoldsKeys};
ghost use Rattle.hive_model.specs.Edit.{of_children, of_items, at_first};
ghost use Rattle.failure_effects.specs.Switching.{as_four, off_key, off_set};

use nt_bytes::{Bytes, Units, same_folded};
use nt_names::startup_names::{SERVICES, START};
use reg_tree::{Key, Keys, Value, Values};
use std::alloc::{AllocError, Global};

/// A DWORD.
const DWORD: u32 = 4;

/// The Start of an entry that is off.
pub(crate) const OFF: u32 = 4;

/// The set with the Start of the entry of this name being 4.
pub(crate) fn off_set(alloc: Global, set: &Key, name: &[u16]) -> Result<Key, AllocError>
    requires { HoldsKeys set.now }
    ensures set { IfOk result (λ k. k ≡ off_set name.now set.now) }
    ensures held { IfOk result HoldsKeys }
{
    let children = off_sets(alloc, set.subkeys(), name)?;
    with_children(alloc, set, children)
}

/// The children of a set, of which the first that is named `Services` has the entry off.
fn off_sets(alloc: Global, keys: &[Key], name: &[u16]) -> Result<Keys, AllocError>
    ensures { IfOk result (λ ks. ks ≡ at_first (is_named (codes "Services")) (of_children (at_first (is_named name.now) off_key)) keys.now) }
{
    let mut made = Keys::new(alloc);
    let mut found = false;
    for key in keys {
        let here = is_first(found, key, &SERVICES);
        made.push(off_services_where(alloc, key, name, here)?)?;
        found |= here;
    }
    Ok(made)
}

/// Whether the key is the first of this name, where `found` says that one was before it.
fn is_first(found: bool, key: &Key, name: &[u16]) -> bool
    ensures { result ≡ (not found && is_named name.now key.now) }
{
    !found && is_named(key, name)
}

fn is_named(key: &Key, name: &[u16]) -> bool
    ensures { result ≡ is_named name.now key.now }
{
    same_folded(name, key.name())
}

/// The services with the entry off, where these are they, or else the key as it is.
fn off_services_where(alloc: Global, key: &Key, name: &[u16], here: bool) -> Result<Key, AllocError>
    ensures { IfOk result (λ k. k ≡ (if here then of_children (at_first (is_named name.now) off_key) key.now else key.now)) }
{
    if here {
        let children = off_services(alloc, key.subkeys(), name)?;
        with_children(alloc, key, children)
    } else {
        key.copy(alloc)
    }
}

/// The services, of which the first of this name is off.
fn off_services(alloc: Global, keys: &[Key], name: &[u16]) -> Result<Keys, AllocError>
    ensures { IfOk result (λ ks. ks ≡ at_first (is_named name.now) off_key keys.now) }
{
    let mut made = Keys::new(alloc);
    let mut found = false;
    for key in keys {
        let here = is_first(found, key, name);
        made.push(off_where(alloc, key, here)?)?;
        found |= here;
    }
    Ok(made)
}

/// The key with its Start being 4, where it is the one, or else as it is.
fn off_where(alloc: Global, key: &Key, here: bool) -> Result<Key, AllocError>
    ensures { IfOk result (λ k. k ≡ (if here then off_key key.now else key.now)) }
{
    if here {
        off_key(alloc, key)
    } else {
        key.copy(alloc)
    }
}

/// The key with its Start being 4.
fn off_key(alloc: Global, key: &Key) -> Result<Key, AllocError>
    ensures { IfOk result (λ k. k ≡ off_key key.now) }
{
    let values = off_values(alloc, key.items())?;
    with_values(alloc, key, values)
}

/// The values, of which the first that is named `Start` is 4.
fn off_values(alloc: Global, values: &[Value]) -> Result<Values, AllocError>
    ensures { IfOk result (λ vs. vs ≡ at_first (is_item (codes "Start")) as_four values.now) }
{
    let mut made = Values::new(alloc);
    let mut found = false;
    for value in values {
        let here = is_first_start(found, value);
        made.push(four_where(alloc, value, here)?)?;
        found |= here;
    }
    Ok(made)
}

fn is_first_start(found: bool, value: &Value) -> bool
    ensures { result ≡ (not found && is_item (codes "Start") value.now) }
{
    !found && is_start(value)
}

fn is_start(value: &Value) -> bool
    ensures { result ≡ is_item (codes "Start") value.now }
{
    same_folded(&START, value.name())
}

/// The value as a DWORD that is 4, where it is the one, or else as it is.
fn four_where(alloc: Global, value: &Value, here: bool) -> Result<Value, AllocError>
    ensures { IfOk result (λ v. v ≡ (if here then as_four value.now else value.now)) }
{
    if here {
        four(alloc, value)
    } else {
        value.copy(alloc)
    }
}

/// The value as a DWORD that is 4.
fn four(alloc: Global, value: &Value) -> Result<Value, AllocError>
    ensures { IfOk result (λ v. v ≡ as_four value.now) }
{
    let mut bytes = Bytes::new(alloc);
    bytes.put_u32(OFF)?;
    Ok(Value {
        name: Units::from_slice(alloc, value.name())?,
        kind: DWORD,
        bytes,
    })
}

/// The key with other children.
fn with_children(alloc: Global, key: &Key, children: Keys) -> Result<Key, AllocError>
    ensures { IfOk result (λ k. k ≡ of_children (λ _. children) key.now) }
{
    Ok(Key {
        name: Units::from_slice(alloc, key.name())?,
        flags: key.flags,
        stamp: key.stamp,
        class: Bytes::from_slice(alloc, key.class())?,
        security: Bytes::from_slice(alloc, key.security())?,
        values: copied_values(alloc, key.items())?,
        children,
    })
}

/// The key with other values.
#[tactic(auto, using(reg_tree::proofs::Trees::trees_listed))]
fn with_values(alloc: Global, key: &Key, values: Values) -> Result<Key, AllocError>
    ensures { IfOk result (λ k. k ≡ of_items (λ _. values) key.now) }
{
    Ok(Key {
        name: Units::from_slice(alloc, key.name())?,
        flags: key.flags,
        stamp: key.stamp,
        class: Bytes::from_slice(alloc, key.class())?,
        security: Bytes::from_slice(alloc, key.security())?,
        values,
        children: copied_keys(alloc, key.subkeys())?,
    })
}

/// A copy of each value, in order.
fn copied_values(alloc: Global, values: &[Value]) -> Result<Values, AllocError>
    ensures { IfOk result (λ vs. vs ≡ values.now) }
{
    let mut made = Values::new(alloc);
    for value in values {
        made.push(value.copy(alloc)?)?;
    }
    Ok(made)
}

/// A copy of each key, in order.
fn copied_keys(alloc: Global, keys: &[Key]) -> Result<Keys, AllocError>
    ensures { IfOk result (λ ks. ks ≡ keys.now) }
{
    let mut made = Keys::new(alloc);
    for key in keys {
        made.push(key.copy(alloc)?)?;
    }
    Ok(made)
}
