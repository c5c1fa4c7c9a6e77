//! The form of a value's data.

ghost use Rattle.std.specs.Prelude.{◌≡◌, ◌==◌, ◌&&◌, ◌*◌, ◌≤◌, length, IfOk};
ghost use Rattle.key_text.specs.Data.{is_zero_before_end, are_strings, strings_of, string_form, is_string_kind, units_form, form_of};

use crate::split::split_at;
use nt_bytes::{Bytes, Names, Units, u32_at, u64_at, wide};
use std::alloc::{AllocError, Global};

/// The data of a value, in the form in which they are printed.
#[derive(Debug, Drop)]
pub enum DataForm {
    /// A number of four bytes, of type 4.
    Dword(u32),
    /// A number of eight bytes, of type 11.
    Qword(u64),
    /// Strings with a zero unit after each and after all, of type 7.
    Strings(Names),
    /// A string and a zero unit.
    Ended(Units),
    /// A string without a zero unit at its end.
    Unended(Units),
    /// Other bytes.
    Raw(Bytes),
}

/// Whether units are there and the last one is zero.
fn ends_with_zero(units: &[u16]) -> bool
    ensures { result ≡ is_zero_before_end 1 units.now }
{
    match units {
        [.., last] => *last == 0,
        _ => false,
    }
}

/// Whether the unit before the last one is there and zero.
fn has_zero_before_last(units: &[u16]) -> bool
    ensures { result ≡ is_zero_before_end 2 units.now }
{
    match units {
        [.., before, _] => *before == 0,
        _ => false,
    }
}

fn are_strings(units: &[u16]) -> bool
    ensures { result ≡ are_strings units.now }
{
    ends_with_zero(units) && (units.len() == 1 || has_zero_before_last(units))
}

fn strings_of(alloc: Global, units: &[u16]) -> Result<Names, AllocError>
    requires { 1 ≤ length units.now }
    ensures { IfOk result (λ strings. strings ≡ strings_of units.now) }
{
    if units.len() == 1 {
        return Ok(Names::new(alloc));
    }
    split_at(alloc, &units[..units.len() - 2], 0)
}

fn string_form(alloc: Global, units: &[u16]) -> Result<DataForm, AllocError>
    ensures { IfOk result (λ form. form ≡ string_form units.now) }
{
    if ends_with_zero(units) {
        Ok(DataForm::Ended(Units::from_slice(alloc, &units[..units.len() - 1])?))
    } else {
        Ok(DataForm::Unended(Units::from_slice(alloc, units)?))
    }
}

fn units_form(alloc: Global, kind: u32, units: &[u16]) -> Result<DataForm, AllocError>
    ensures { IfOk result (λ form. form ≡ units_form kind units.now) }
{
    if kind == 7 && are_strings(units) {
        Ok(DataForm::Strings(strings_of(alloc, units)?))
    } else {
        string_form(alloc, units)
    }
}

/// Whether a type is one of those whose data are strings: 1, 2, 6 and 7.
pub fn is_string_kind(kind: u32) -> bool
    ensures { result ≡ is_string_kind kind }
{
    kind == 1 || kind == 2 || kind == 6 || kind == 7
}

/// The form in which data of a type are printed.
#[tactic(auto, unfolding(crate::specs::Data::form_of))]
pub fn data_form(alloc: Global, kind: u32, bytes: &[u8]) -> Result<DataForm, AllocError>
    ensures exact { IfOk result (λ form. form ≡ form_of kind bytes.now) }
{
    if kind == 4 && bytes.len() == 4 {
        Ok(DataForm::Dword(u32_at(bytes, 0)))
    } else if kind == 11 && bytes.len() == 8 {
        Ok(DataForm::Qword(u64_at(bytes, 0)))
    } else if is_string_kind(kind) && bytes.len() % 2 == 0 {
        let units = wide(alloc, bytes)?;
        units_form(alloc, kind, units.as_slice())
    } else {
        Ok(DataForm::Raw(Bytes::from_slice(alloc, bytes)?))
    }
}
