//! Services, their names and those of their groups.

ghost use Rattle.std.specs.Prelude.{◌≡◌, ◌<◌, ◌≤◌, ◌++◌, IfOk, OnOk};
ghost use Rattle.generated_hive.specs.Generated.{first_services, generated_service, group_name, group_value, has_need};
ghost use Rattle.generated_hive.specs.Generated.{last_digit, need_value, need_values, order_values, plain_key, service_name, type_number};

use crate::values::{number, put_text, string};
use nt_bytes::{Bytes, narrow};
use reg_tree::{Key, Keys, Value, Values};
use std::alloc::{AllocError, Global};

/// The last decimal digit.
fn digit(n: u32) -> u8
    ensures { result ≡ last_digit n }
{
    b'0' + (n % 10) as u8
}

/// `Group` and a digit.
#[tactic(auto, unfolding(crate::specs::Generated::group_name))]
pub(crate) fn group(k: u32) -> [u8; 6]
    ensures { result ≡ group_name k }
{
    [b'G', b'r', b'o', b'u', b'p', digit(k)]
}

/// `Svc` and five digits.
#[tactic(auto, unfolding(crate::specs::Generated::service_name))]
fn name(i: u32) -> [u8; 8]
    ensures { result ≡ service_name i }
{
    [
        b'S',
        b'v',
        b'c',
        digit(i / 10_000),
        digit(i / 1_000),
        digit(i / 100),
        digit(i / 10),
        digit(i),
    ]
}

/// A key without flags, class and descriptor.
#[tactic(auto, unfolding(crate::specs::Generated::plain_key))]
pub(crate) fn plain(
    alloc: Global,
    name: &[u8],
    values: Values,
    children: Keys,
) -> Result<Key, AllocError>
    ensures { IfOk result (λ k. k ≡ plain_key name.now values children) }
{
    Ok(Key {
        name: narrow(alloc, name)?,
        flags: 0,
        stamp: 0,
        class: Bytes::new(alloc),
        security: Bytes::new(alloc),
        values,
        children,
    })
}

/// A kernel driver, or a process of its own where the start is automatic.
fn type_number(i: u32) -> u32
    ensures { result ≡ type_number i }
{
    if i % 3 < 2 { 1 } else { 16 }
}

fn has_need(i: u32) -> bool
    ensures { result ≡ has_need i }
{
    3 <= i && i % 4 == 1
}

/// The group that it is in.
#[tactic(auto, unfolding(crate::specs::Generated::group_value))]
fn group_value(alloc: Global, i: u32) -> Result<Value, AllocError>
    requires { i < 10000 }
    ensures { IfOk result (λ v. v ≡ group_value i) }
{
    string(alloc, b"Group", &group(7 * i))
}

/// What each service has.
#[tactic(auto, unfolding(crate::specs::Generated::order_values))]
fn order_values(alloc: Global, i: u32) -> Result<Values, AllocError>
    requires { i < 10000 }
    ensures { IfOk result (λ v. v ≡ order_values i) }
{
    let mut values = Values::new(alloc);
    values.push(number(alloc, b"Start", i % 3)?)?;
    values.push(number(alloc, b"Type", type_number(i))?)?;
    values.push(number(alloc, b"ErrorControl", 1)?)?;
    values.push(group_value(alloc, i)?)?;
    values.push(number(alloc, b"Tag", i % 8)?)?;
    Ok(values)
}

/// The one service that this one needs.
#[tactic(auto, unfolding(crate::specs::Generated::need_value, crate::specs::Generated::strings_value))]
fn need(alloc: Global, i: u32) -> Result<Value, AllocError>
    requires { 3 ≤ i }
    ensures { IfOk result (λ v. v ≡ need_value i) }
{
    let mut bytes = Bytes::new(alloc);
    put_text(&mut bytes, &name(i - 3))?;
    bytes.put_u16(0)?;
    Ok(Value {
        name: narrow(alloc, b"DependOnService")?,
        kind: 7,
        bytes,
    })
}

/// Puts after what the service needs, if anything.
fn push_need(alloc: Global, values: &mut Values, i: u32) -> Result<(), AllocError>
    ensures { OnOk result (values.new ≡ values.old ++ need_values i) }
{
    if has_need(i) {
        values.push(need(alloc, i)?)?;
    }
    Ok(())
}

#[tactic(auto, unfolding(crate::specs::Generated::generated_service))]
fn service(alloc: Global, i: u32) -> Result<Key, AllocError>
    requires { i < 10000 }
    ensures { IfOk result (λ k. k ≡ generated_service i) }
{
    let mut values = order_values(alloc, i)?;
    push_need(alloc, &mut values, i)?;
    plain(alloc, &name(i), values, Keys::new(alloc))
}

/// The first services, that many.
pub(crate) fn services(alloc: Global, count: u32) -> Result<Keys, AllocError>
    requires { count ≤ 10000 }
    ensures { IfOk result (λ keys. keys ≡ first_services count) }
{
    let mut keys = Keys::new(alloc);
    for i in 0..count {
        keys.push(service(alloc, i)?)?;
    }
    Ok(keys)
}
