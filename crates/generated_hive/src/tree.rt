//! The whole tree.

ghost use Rattle.std.specs.Prelude.{◌≡◌, ◌≤◌, ◌++◌, map, OnOk, IfOk};
ghost use Rattle.std.specs.List.{flat_map, range_with_len};
ghost use Rattle.generated_hive.specs.Generated.{generated, generated_control, generated_select, generated_set, group_count, group_name};
ghost use Rattle.generated_hive.specs.Generated.{groups_key, numbers_value, tag_order, tags_key, tags_values, text_bytes};

use crate::services::{group, plain, services};
use crate::values::{number, put_text};
use nt_bytes::{Bytes, narrow};
use reg_tree::{Key, Keys, Value, Values};
use std::alloc::{AllocError, Global};

/// How many groups there are.
const GROUPS: u32 = 10;

/// The tags of a group in their order: how many they are, and the tags, the greatest first.
#[tactic(auto, unfolding(crate::specs::Generated::numbers_value))]
fn tags(alloc: Global, name: &[u8]) -> Result<Value, AllocError>
    ensures { IfOk result (λ v. v ≡ numbers_value name.now tag_order) }
{
    let mut bytes = Bytes::new(alloc);
    for number in [8, 7, 6, 5, 4, 3, 2, 1, 0] {
        bytes.put_u32(number)?;
    }
    Ok(Value {
        name: narrow(alloc, name)?,
        kind: 3,
        bytes,
    })
}

/// Those of each group.
#[tactic(auto, unfolding(crate::specs::Generated::tags_values))]
fn tags_values(alloc: Global) -> Result<Values, AllocError>
    ensures { IfOk result (λ v. v ≡ tags_values) }
{
    let mut values = Values::new(alloc);
    for k in 0..GROUPS {
        values.push(tags(alloc, &group(k))?)?;
    }
    Ok(values)
}

/// The key that has them.
#[tactic(auto, unfolding(crate::specs::Generated::tags_key))]
fn tags_key(alloc: Global) -> Result<Key, AllocError>
    ensures { IfOk result (λ k. k ≡ tags_key) }
{
    let values = tags_values(alloc)?;
    plain(alloc, b"GroupOrderList", values, Keys::new(alloc))
}

/// The names of the groups, each with a zero unit.
fn put_groups(out: &mut Bytes) -> Result<(), AllocError>
    ensures { OnOk result (out.new ≡ out.old ++ flat_map text_bytes (map group_name (range_with_len 0 group_count))) }
{
    for k in 0..GROUPS {
        put_text(out, &group(k))?;
    }
    Ok(())
}

/// The groups in their order.
#[tactic(auto, unfolding(crate::specs::Generated::groups_key, crate::specs::Generated::strings_value))]
fn groups_key(alloc: Global) -> Result<Key, AllocError>
    ensures { IfOk result (λ k. k ≡ groups_key) }
{
    let mut bytes = Bytes::new(alloc);
    put_groups(&mut bytes)?;
    bytes.put_u16(0)?;
    let mut values = Values::new(alloc);
    values.push(Value {
        name: narrow(alloc, b"List")?,
        kind: 7,
        bytes,
    })?;
    plain(alloc, b"ServiceGroupOrder", values, Keys::new(alloc))
}

/// The orders of the groups and of their tags.
#[tactic(auto, unfolding(crate::specs::Generated::generated_control))]
fn control(alloc: Global) -> Result<Key, AllocError>
    ensures { IfOk result (λ k. k ≡ generated_control) }
{
    let mut children = Keys::new(alloc);
    children.push(tags_key(alloc)?)?;
    children.push(groups_key(alloc)?)?;
    plain(alloc, b"Control", Values::new(alloc), children)
}

/// The one control set.
#[tactic(auto, unfolding(crate::specs::Generated::generated_set))]
fn set(alloc: Global, count: u32) -> Result<Key, AllocError>
    requires { count ≤ 10000 }
    ensures { IfOk result (λ k. k ≡ generated_set count) }
{
    let services = services(alloc, count)?;
    let mut children = Keys::new(alloc);
    children.push(control(alloc)?)?;
    children.push(plain(alloc, b"Services", Values::new(alloc), services)?)?;
    plain(alloc, b"ControlSet001", Values::new(alloc), children)
}

/// The one set is current, default and last known good, and none has failed.
#[tactic(auto, unfolding(crate::specs::Generated::generated_select))]
fn select(alloc: Global) -> Result<Key, AllocError>
    ensures { IfOk result (λ k. k ≡ generated_select) }
{
    let mut values = Values::new(alloc);
    values.push(number(alloc, b"Current", 1)?)?;
    values.push(number(alloc, b"Default", 1)?)?;
    values.push(number(alloc, b"Failed", 0)?)?;
    values.push(number(alloc, b"LastKnownGood", 1)?)?;
    plain(alloc, b"Select", values, Keys::new(alloc))
}

/// The tree of a system with one control set of that many services. Each key is made once and moved to its place, so the
/// work is linear in their number.
#[tactic(auto, unfolding(crate::specs::Generated::generated))]
pub fn generated_tree(alloc: Global, count: u32) -> Result<Key, AllocError>
    requires few { count ≤ 10000 }
    ensures { IfOk result (λ k. k ≡ generated count) }
{
    let mut children = Keys::new(alloc);
    children.push(set(alloc, count)?)?;
    children.push(select(alloc)?)?;
    Ok(Key {
        name: narrow(alloc, b"ROOT")?,
        flags: 0x000c,
        stamp: 0,
        class: Bytes::new(alloc),
        security: Bytes::new(alloc),
        values: Values::new(alloc),
        children,
    })
}
