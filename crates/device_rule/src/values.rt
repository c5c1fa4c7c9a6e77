//! Texts, names and numbers of keys.

ghost use Rattle.std.specs.Prelude.{◌≡◌, filter, IfOk};
ghost use Rattle.std.specs.List.{slice_split};
ghost use Rattle.nt_bytes.specs.Text.{is_zero, is_filled};
ghost use Rattle.device_rule.specs.Values.{filled, text_of, pieces_of, pieces_in, names_of, number_of};

use nt_bytes::{Names, Units, wide};
use reg_tree::{Key, Value};
use std::alloc::{AllocError, Global};

/// The text, unless it is empty.
fn filled(text: Option<Units>) -> Option<Units>
    ensures { result ≡ filled text }
{
    match text {
        Some(text) => { if text.is_empty() { None } else { Some(text) } }
        None => None,
    }
}

/// The text under a name, unless it is empty.
pub(crate) fn text_of(alloc: Global, key: &Key, name: &[u16]) -> Result<Option<Units>, AllocError>
    ensures { IfOk result (λ t. t ≡ text_of name.now key.now) }
{
    Ok(filled(key.text(alloc, name)?))
}

/// The parts between zero units, empty ones too.
fn split(alloc: Global, units: &[u16]) -> Result<Names, AllocError>
    ensures { IfOk result (λ parts. parts ≡ slice_split is_zero units.now) }
{
    let mut parts = Names::new(alloc);
    for part in units.split(|unit| *unit == 0) {
        parts.push(Units::from_slice(alloc, part)?)?;
    }
    Ok(parts)
}

/// Those of the parts that aren't empty.
fn filled_parts(alloc: Global, parts: &[Units]) -> Result<Names, AllocError>
    ensures { IfOk result (λ names. names ≡ filter is_filled parts.now) }
{
    let mut names = Names::new(alloc);
    for part in parts {
        if !part.is_empty() {
            names.push(part.copy(alloc)?)?;
        }
    }
    Ok(names)
}

/// The parts between zero units that aren't empty.
fn pieces_of(alloc: Global, units: &[u16]) -> Result<Names, AllocError>
    ensures { IfOk result (λ names. names ≡ pieces_of units.now) }
{
    let parts = split(alloc, units)?;
    filled_parts(alloc, parts.as_slice())
}

fn pieces_in(alloc: Global, value: &Value) -> Result<Names, AllocError>
    ensures { IfOk result (λ names. names ≡ pieces_in value.now) }
{
    if value.kind != 7 {
        return Ok(Names::new(alloc));
    }
    let units = wide(alloc, value.data())?;
    pieces_of(alloc, units.as_slice())
}

/// The names under a name, where there is a value of type 7, else none.
pub(crate) fn names_of(alloc: Global, key: &Key, name: &[u16]) -> Result<Names, AllocError>
    ensures { IfOk result (λ names. names ≡ names_of name.now key.now) }
{
    match key.value(name) {
        Some(value) => pieces_in(alloc, value),
        None => Ok(Names::new(alloc)),
    }
}

/// The number under a name, 0 where there is none.
pub(crate) fn number_of(key: &Key, name: &[u16]) -> u32
    ensures { result ≡ number_of name.now key.now }
{
    key.dword(name).unwrap_or(0)
}
