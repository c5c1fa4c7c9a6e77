//! A word read from the left.

ghost use Rattle.std.specs.Prelude.{◌≡◌, ◌<◌, ◌++◌, ◌∷◌, [], length, None, IfOk, IfSome, IsSome, OnOk, option_map};
ghost use Rattle.nt_names.specs.written_name.Written.{escaped_in, with_escapes_read, written_of};

use crate::written_name::escapes::escaped_in;
use crate::written_name::units::units_of;
use nt_bytes::Units;
use std::alloc::{AllocError, Global};

/// The first unit that is read, and the units after it. None where there is none.
fn first_read(units: &[u16]) -> Option<(u16, &[u16])>
    ensures none { result ≡ None → units.now ≡ [] }
    ensures some { IfSome result (λ x. with_escapes_read units.now ≡ x.0 ∷ with_escapes_read x.1.now) }
    ensures shorter { IfSome result (λ x. length x.1.now < length units.now) }
{
    if let Some(unit) = escaped_in(units) {
        return Some((unit, after_escape(units)));
    }
    match units {
        [unit, rest @ ..] => Some((*unit, rest)),
        [] => None,
    }
}

/// The units after the first six.
fn after_escape(units: &[u16]) -> &[u16]
    requires { IsSome (escaped_in units.now) }
    ensures read { IfSome (escaped_in units.now) (λ unit. with_escapes_read units.now ≡ unit ∷ with_escapes_read result.now) }
    ensures shorter { length result.now < length units.now }
{
    match units {
        [_, _, _, _, _, _, rest @ ..] => rest,
        _ => unreachable!(),
    }
}

/// Puts the units at the end of others, each escape as its unit.
fn push_read(name: &mut Units, units: &[u16]) -> Result<(), AllocError>
    ensures { OnOk result (name.new ≡ name.old ++ with_escapes_read units.now) }
{
    let mut rest = units;
    'units: while let Some((unit, more)) = first_read(rest) {
        name.push(unit)?;
        rest = more;
    }
    Ok(())
}

/// The name that a word writes: its UTF-16 units, where `\u` and four hexadecimal digits stand for the unit of that number.
pub fn written_name(alloc: Global, word: &str) -> Result<Units, AllocError>
    ensures { IfOk result (λ name. name ≡ written_of word.now) }
{
    let units = units_of(alloc, word)?;
    let mut name = Units::new(alloc);
    push_read(&mut name, units.as_slice())?;
    Ok(name)
}

/// The same of a word that may be missing.
pub fn written_name_if(alloc: Global, word: Option<&str>) -> Result<Option<Units>, AllocError>
    ensures { IfOk result (λ name. name ≡ option_map written_of (option_map (λ v. v.now) word.entry)) }
{
    match word {
        Some(word) => Ok(Some(written_name(alloc, word)?)),
        None => Ok(None),
    }
}
