//! Names and strings as a hive stores them.

ghost use Rattle.std.specs.Prelude.{◌≡◌, ◌+◌, ◌*◌, ◌≤◌, length, IfOk};
ghost use Rattle.std.specs.List.{position_or_len, before_first, after_first};
ghost use Rattle.nt_bytes.specs.Text.{wide_of, narrow_of, is_zero, sz_of, multi_sz_of};

use crate::names::Names;
use crate::units::Units;
use std::alloc::{AllocError, Global};

/// The little-endian units of the bytes. An odd last byte is left out.
pub fn wide(alloc: Global, bytes: &[u8]) -> Result<Units, AllocError>
    ensures units { IfOk result (λ u. u ≡ wide_of bytes.now) }
    ensures half { IfOk result (λ u. 2 * length u ≤ length bytes.now) }
{
    let mut units = Units::new(alloc);
    let mut rest = bytes;
    while let [low, high, more @ ..] = rest {
        units.push(u16::from_le_bytes([*low, *high]))?;
        rest = more;
    }
    Ok(units)
}

/// One unit per byte.
pub fn narrow(alloc: Global, bytes: &[u8]) -> Result<Units, AllocError>
    ensures { IfOk result (λ u. u ≡ narrow_of bytes.now) }
{
    let mut units = Units::new(alloc);
    for byte in bytes {
        units.push(u16::from(*byte))?;
    }
    Ok(units)
}

fn zero_place(units: &[u16]) -> usize
    ensures place { result ≡ position_or_len is_zero units.now }
    ensures bound { result ≤ length units.now }
{
    let mut place = 0;
    for unit in units {
        if *unit == 0 {
            return place;
        }
        place += 1;
    }
    place
}

/// The units before the first zero unit of `wide`.
pub fn sz(alloc: Global, bytes: &[u8]) -> Result<Units, AllocError>
    ensures units { IfOk result (λ u. u ≡ sz_of bytes.now) }
    ensures half { IfOk result (λ u. 2 * length u ≤ length bytes.now) }
{
    let units = wide(alloc, bytes)?;
    let place = zero_place(units.as_slice());
    Units::from_slice(alloc, units.as_slice().split_at(place).0)
}

/// What stands before the first zero unit, and what stands after it.
fn split_item(units: &[u16]) -> (&[u16], &[u16])
    ensures item { result.0.now ≡ before_first is_zero units.now }
    ensures after { result.1.now ≡ after_first is_zero units.now }
    ensures shorter { length result.0.now + length result.1.now ≤ length units.now }
{
    let place = zero_place(units);
    let item = units.split_at(place).0;
    if place == units.len() {
        return (item, &[]);
    }
    (item, units.split_at(place + 1).1)
}

/// The strings of `wide`, each up to a zero unit, before the first empty one. The last may lack
/// its zero unit.
pub fn multi_sz(alloc: Global, bytes: &[u8]) -> Result<Names, AllocError>
    ensures names { IfOk result (λ names. names ≡ multi_sz_of bytes.now) }
    ensures half { IfOk result (λ names. 2 * length names ≤ length bytes.now) }
{
    let units = wide(alloc, bytes)?;
    let mut names = Names::new(alloc);
    let mut rest = units.as_slice();
    'items: loop {
        let (item, after) = split_item(rest);
        if item.is_empty() {
            return Ok(names);
        }
        names.push(Units::from_slice(alloc, item)?)?;
        rest = after;
    }
}
