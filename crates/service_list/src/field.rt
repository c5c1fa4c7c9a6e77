//! What a line says of a value.

ghost use Rattle.std.specs.Prelude.{◌≡◌, ◌<◌, position, length, IfOk, IfSome};
ghost use Rattle.std.specs.List.{list_all};
ghost use Rattle.nt_bytes.specs.Text.{is_zero};
ghost use Rattle.key_text.specs.Kinds.{kind_text};
ghost use Rattle.service_list.specs.Fields.{other_of, number_in, is_ended, is_text, text_in, number_field, text_field, dll_field};

use crate::names::{PARAMETERS, SERVICE_DLL};
use key_text::{DataForm, data_form, push_kind};
use nt_bytes::{Bytes, Units, sz, u32_at, wide};
use reg_tree::{Key, Value};
use std::alloc::{AllocError, Global};

/// What a line says of a value. Nothing is put in place of what is missing.
#[derive(Drop)]
pub enum Field {
    /// There is no such value.
    Missing,
    /// A number was asked for, and it is one: four bytes of type 4.
    Number(u32),
    /// A text was asked for, and it is one: of type 1 or 2, of even length, with a zero unit, after whose first zero unit
    /// stand zeros alone. The units before it.
    Text(Units),
    /// All else: the name of its type and its data, as `key` prints them.
    Other { kind: Bytes, form: DataForm },
}

/// The name of a type.
fn kind_word(alloc: Global, kind: u32) -> Result<Bytes, AllocError>
    ensures { IfOk result (λ w. w ≡ kind_text kind) }
{
    let mut word = Vec::new(alloc);
    push_kind(alloc, &mut word, kind)?;
    Ok(Bytes::from_vec(word))
}

/// All else.
fn other(alloc: Global, value: &Value) -> Result<Field, AllocError>
    ensures { IfOk result (λ f. f ≡ other_of value.now) }
{
    let kind = kind_word(alloc, value.kind)?;
    let form = data_form(alloc, value.kind, value.data())?;
    Ok(Field::Other { kind, form })
}

/// What a line says of a value where a number is asked for.
pub(crate) fn number_in(alloc: Global, value: &Value) -> Result<Field, AllocError>
    ensures { IfOk result (λ f. f ≡ number_in value.now) }
{
    if value.kind == 4 && value.data().len() == 4 {
        Ok(Field::Number(u32_at(value.data(), 0)))
    } else {
        other(alloc, value)
    }
}

fn first_zero(units: &[u16]) -> Option<usize>
    ensures place { result ≡ position is_zero units.now }
    ensures within { IfSome result (λ at. at < length units.now) }
{
    units.iter().position(|unit| *unit == 0)
}

fn are_zeros(units: &[u16]) -> bool
    ensures { result ≡ list_all is_zero units.now }
{
    units.iter().all(|unit| *unit == 0)
}

/// Whether a zero unit is there, and after the first one zeros alone.
fn is_ended(units: &[u16]) -> bool
    ensures { result ≡ is_ended units.now }
{
    match first_zero(units) {
        Some(at) => are_zeros(&units[at..]),
        None => false,
    }
}

fn is_text(alloc: Global, value: &Value) -> Result<bool, AllocError>
    ensures { IfOk result (λ b. b ≡ is_text value.now) }
{
    let units = wide(alloc, value.data())?;
    let ended = is_ended(units.as_slice());
    Ok((value.kind == 1 || value.kind == 2) && (value.data().len() % 2 == 0 && ended))
}

/// What a line says of a value where a text is asked for.
fn text_in(alloc: Global, value: &Value) -> Result<Field, AllocError>
    ensures { IfOk result (λ f. f ≡ text_in value.now) }
{
    if is_text(alloc, value)? {
        Ok(Field::Text(sz(alloc, value.data())?))
    } else {
        other(alloc, value)
    }
}

/// The number under a name.
pub(crate) fn number_field(alloc: Global, key: &Key, name: &[u16]) -> Result<Field, AllocError>
    ensures { IfOk result (λ f. f ≡ number_field name.now key.now) }
{
    match key.value(name) {
        Some(value) => number_in(alloc, value),
        None => Ok(Field::Missing),
    }
}

/// The text under a name.
pub(crate) fn text_field(alloc: Global, key: &Key, name: &[u16]) -> Result<Field, AllocError>
    ensures { IfOk result (λ f. f ≡ text_field name.now key.now) }
{
    match key.value(name) {
        Some(value) => text_in(alloc, value),
        None => Ok(Field::Missing),
    }
}

/// The library of a service, by its subkey `Parameters`.
pub(crate) fn dll_field(alloc: Global, key: &Key) -> Result<Field, AllocError>
    ensures { IfOk result (λ f. f ≡ dll_field key.now) }
{
    match key.child(&PARAMETERS) {
        Some(parameters) => text_field(alloc, parameters, &SERVICE_DLL),
        None => Ok(Field::Missing),
    }
}
