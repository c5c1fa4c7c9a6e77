//! What the cells of values and keys say.

ghost use Rattle.std.specs.Prelude.{◌≡◌, ◌≤◌, ◌<◌, ◌+◌, ◌*◌, ◌^◌, nat_lt, length, if◌then◌else◌, IfOk, ◌/◌, ◌%◌};
ghost use Rattle.std.specs.Int.{w32, from_le_bytes};
ghost use Rattle.std.specs.Prelude.{◌++◌, ◌-◌};
ghost use lib.ListN.{replicate};
ghost use Rattle.hive_model.specs.Limits.{most_bins};
ghost use Rattle.hive_model.specs.Tree.{Item, Tree, head, children};
ghost use Rattle.hive_model.specs.Valid.{HoldsKeys};
ghost use Rattle.hive_model.specs.Size.{head_size, list_size};
ghost use Rattle.hive_model.specs.Packed.{data_place, item_form, node_of, stored_flags, greatest, place_of_some};
ghost use Rattle.cell_forms.specs.Views.{key_node_of, key_value_of};
ghost use Rattle.hive_pack.specs.Writes.{above};

use crate::security::{Up, security_place};
use crate::sizes::{cell_size, class_len, is_narrow, name_len, node_len, security_len, values_len};
use cell_forms::{NkForm, VkForm};
use nt_bytes::{Bytes, HiveVersion, Units, u32_at};
use reg_tree::{Key, Value};
use std::alloc::{AllocError, Global};

/// An offset that names nothing.
pub const NOWHERE: u32 = 0xffff_ffff;

/// At most four bytes as a number, with zeros after them.
fn own_number(alloc: Global, bytes: &[u8]) -> Result<u32, AllocError>
    requires { length bytes.now ≤ 4 }
    ensures { IfOk result (λ n. n ≡ from_le_bytes w32 (bytes.now ++ replicate (4 - length bytes.now) 0)) }
{
    let mut own = Bytes::from_slice(alloc, bytes)?;
    own.append_zeros(4 - bytes.len())?;
    Ok(u32_at(own.as_slice(), 0))
}

fn size_field(bytes: &[u8]) -> u32
    requires { length bytes.now ≤ most_bins }
    ensures { result ≡ (if nat_lt 4 (length bytes.now) then length bytes.now else 2147483648 + length bytes.now) }
{
    if bytes.len() > 4 {
        bytes.len() as u32
    } else {
        2147483648 + bytes.len() as u32
    }
}

fn offset_field(alloc: Global, at: usize, value: &Value) -> Result<u32, AllocError>
    requires { data_place at value.now ≤ most_bins }
    ensures { IfOk result (λ n. n ≡ (item_form at value.now).offset) }
{
    let data = value.data();
    if data.len() > 4 {
        Ok((at + cell_size(20 + name_len(value.name()))) as u32)
    } else {
        own_number(alloc, data)
    }
}

/// What the cell of a value says that stands here.
pub(crate) fn value_form(alloc: Global, at: usize, value: &Value) -> Result<VkForm, AllocError>
    requires place { data_place at value.now ≤ most_bins }
    requires bytes { length value.now.bytes ≤ most_bins }
    ensures { IfOk result (λ f. key_value_of f ≡ item_form at value.now) }
{
    Ok(VkForm {
        size: size_field(value.data()),
        offset: offset_field(alloc, at, value)?,
        kind: value.kind,
        flags: if is_narrow(value.name()) { 1 } else { 0 },
        name: Units::from_slice(alloc, value.name())?,
    })
}

/// The greatest length of a child's name, in bytes of UTF-16.
fn greatest_child_name(keys: &[Key]) -> u32
    requires { greatest (λ (k : Tree). 2 * length (head k).name) keys.now < 2 ^ 32 }
    ensures { result ≡ greatest (λ (k : Tree). 2 * length (head k).name) keys.now }
{
    let mut most = 0;
    let mut rest = keys;
    'keys: loop {
        let [key, more @ ..] = rest else {
            return most;
        };
        most = most.max((2 * key.name().len()) as u32);
        rest = more;
    }
}

/// The greatest length of a child's class, in bytes.
fn greatest_child_class(keys: &[Key]) -> u32
    requires { greatest (λ (k : Tree). length (head k).class) keys.now < 2 ^ 32 }
    ensures { result ≡ greatest (λ (k : Tree). length (head k).class) keys.now }
{
    let mut most = 0;
    let mut rest = keys;
    'keys: loop {
        let [key, more @ ..] = rest else {
            return most;
        };
        most = most.max(key.class().len() as u32);
        rest = more;
    }
}

/// The greatest length of a value's name, in bytes of UTF-16.
fn greatest_value_name(values: &[Value]) -> u32
    requires { greatest (λ (v : Item). 2 * length v.name) values.now < 2 ^ 32 }
    ensures { result ≡ greatest (λ (v : Item). 2 * length v.name) values.now }
{
    let mut most = 0;
    let mut rest = values;
    'values: loop {
        let [value, more @ ..] = rest else {
            return most;
        };
        most = most.max((2 * value.name().len()) as u32);
        rest = more;
    }
}

/// The greatest length of a value's data, in bytes.
fn greatest_value_size(values: &[Value]) -> u32
    requires { greatest (λ (v : Item). length v.bytes) values.now < 2 ^ 32 }
    ensures { result ≡ greatest (λ (v : Item). length v.bytes) values.now }
{
    let mut most = 0;
    let mut rest = values;
    'values: loop {
        let [value, more @ ..] = rest else {
            return most;
        };
        most = most.max(value.data().len() as u32);
        rest = more;
    }
}

fn node_flags(key: &Key) -> u16
    ensures { result ≡ stored_flags (head key.now).name (head key.now).flags }
{
    let other = key.flags - key.flags / 32 % 2 * 32;
    if is_narrow(key.name()) {
        other + 32
    } else {
        other
    }
}

fn place_of_some(n: usize, at: usize) -> u32
    requires { at ≤ most_bins }
    ensures { result ≡ place_of_some n at }
{
    if n == 0 { NOWHERE } else { at as u32 }
}

/// What the node of a key says whose cells begin here.
pub(crate) fn node_form(
    alloc: Global,
    version: HiveVersion,
    up: Up<'_>,
    at: usize,
    key: &Key,
) -> Result<NkForm, AllocError>
    requires valid { HoldsKeys key.now }
    requires room { at + head_size version up.security.now (head key.now) + list_size (length (children key.now)) ≤ most_bins }
    ensures { IfOk result (λ f. key_node_of f ≡ node_of version (above up.entry) at (head key.now) (children key.now)) }
{
    let keys = key.subkeys();
    let values = key.items();
    let class_at = at + node_len(key);
    let own_at = class_at + class_len(key.class());
    let values_at = own_at + security_len(up.security, key.security());
    let list_at = values_at + values_len(version, values);
    Ok(NkForm {
        flags: node_flags(key),
        stamp: key.stamp,
        parent: up.place,
        child_count: keys.len() as u32,
        volatile_count: 0,
        child_list: place_of_some(keys.len(), list_at),
        volatile_list: NOWHERE,
        value_count: values.len() as u32,
        value_list: place_of_some(values.len(), values_at),
        security: security_place(up, own_at as u32, key.security()),
        class: place_of_some(key.class().len(), class_at),
        greatest_child_name: greatest_child_name(keys),
        greatest_child_class: greatest_child_class(keys),
        greatest_value_name: greatest_value_name(values),
        greatest_value_size: greatest_value_size(values),
        class_length: key.class().len() as u16,
        name: Units::from_slice(alloc, key.name())?,
    })
}
