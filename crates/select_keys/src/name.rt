//! The names of control sets.

ghost use Rattle.std.specs.Prelude.{◌≡◌, ◌∷◌, [], ◌+◌, ◌*◌, ◌/◌, ◌%◌, ◌≤◌, ◌<◌, IfOk};
ghost use Rattle.start_model.specs.Sets.{set_name};
ghost use Rattle.select_keys.specs.Names.{IsNumberOf, AreDigitsOf, IsDigitOf};

use nt_bytes::{Names, Units, same_folded};
use nt_names::startup_names::CONTROL_SET;
use std::alloc::{AllocError, Global};

/// `0`.
const ZERO: u16 = 0x30;

/// The name of the set of this number, which has at most three digits: `ControlSet` and the digits.
pub fn set_name(alloc: Global, number: u32) -> Result<Units, AllocError>
    requires { number ≤ 999 }
    ensures { IfOk result (λ u. u ≡ set_name number) }
{
    Units::from_slice(alloc, &set_units(number))
}

/// The units of that name.
pub(crate) fn set_units(number: u32) -> [u16; 13]
    requires { number ≤ 999 }
    ensures { result ≡ set_name number }
{
    [
        0x43,
        0x6f,
        0x6e,
        0x74,
        0x72,
        0x6f,
        0x6c,
        0x53,
        0x65,
        0x74,
        digit(number / 100),
        digit(number / 10 % 10),
        digit(number % 10),
    ]
}

/// The path from the root to the set of this number.
pub fn set_path(alloc: Global, number: u32) -> Result<Names, AllocError>
    requires { number ≤ 999 }
    ensures { IfOk result (λ p. p ≡ set_name number ∷ []) }
{
    let mut path = Names::new(alloc);
    path.push(set_name(alloc, number)?)?;
    Ok(path)
}

fn digit(number: u32) -> u16
    requires { number ≤ 9 }
    ensures { result ≡ 48 + number }
{
    ZERO + number as u16
}

/// The number from 1 to 999 whose set has this name.
pub(crate) fn set_number(name: &[u16]) -> Option<u32>
    ensures { IsNumberOf name.now result }
{
    let [front @ .., hundreds, tens, ones] = name else {
        return None;
    };
    if !same_folded(&CONTROL_SET, front) {
        return None;
    }
    number_of(*hundreds, *tens, *ones)
}

/// The number from 1 to 999 with these digits.
fn number_of(hundreds: u16, tens: u16, ones: u16) -> Option<u32>
    ensures { AreDigitsOf hundreds tens ones result }
{
    let number = 100 * value_of(hundreds)? + 10 * value_of(tens)? + value_of(ones)?;
    if number == 0 { None } else { Some(number) }
}

/// What a digit stands for.
fn value_of(unit: u16) -> Option<u32>
    ensures { IsDigitOf unit result }
{
    if ZERO <= unit && unit <= 0x39 {
        Some(u32::from(unit - ZERO))
    } else {
        None
    }
}
