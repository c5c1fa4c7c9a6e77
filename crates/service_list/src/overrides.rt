//! The subkey `StartOverride` of a service.

ghost use Rattle.std.specs.Prelude.{◌≡◌, ◌&&◌, IfOk};
ghost use Rattle.std.specs.List.{list_all};
ghost use Rattle.std.specs.Char.{is_ascii_digit};
ghost use Rattle.nt_bytes.specs.Text.{is_digits};
ghost use Rattle.service_list.specs.Overrides.{override_of, overrides_in, overrides_of};

use crate::field::{Field, number_in};
use crate::names::START_OVERRIDE;
use nt_bytes::{Row, Units};
use reg_tree::{Key, Value};
use std::alloc::{AllocError, Global};

/// A value of the subkey `StartOverride` whose name is a number: the name as it stands, and its field.
#[derive(Drop)]
pub struct Override {
    pub name: Units,
    pub value: Field,
}

fn is_digit(unit: u16) -> bool
    ensures { result ≡ is_ascii_digit unit }
{
    0x30 <= unit && unit <= 0x39
}

fn are_digits(name: &[u16]) -> bool
    ensures { result ≡ list_all is_ascii_digit name.now }
{
    name.iter().all(|unit| is_digit(*unit))
}

fn is_digits(name: &[u16]) -> bool
    ensures { result ≡ is_digits name.now }
{
    !name.is_empty() && are_digits(name)
}

fn override_at(alloc: Global, value: &Value) -> Result<Override, AllocError>
    ensures { IfOk result (λ o. o ≡ override_of value.now) }
{
    let name = Units::from_slice(alloc, value.name())?;
    let value = number_in(alloc, value)?;
    Ok(Override { name, value })
}

/// Those of these values whose names are numbers.
fn overrides_in(alloc: Global, values: &[Value]) -> Result<Row<Override>, AllocError>
    ensures { IfOk result (λ o. o ≡ overrides_in values.now) }
{
    let mut overrides = Row::new(alloc);
    for value in values {
        if is_digits(value.name()) {
            overrides.push(override_at(alloc, value)?)?;
        }
    }
    Ok(overrides)
}

/// The overrides of a key, in order.
pub(crate) fn overrides_of(alloc: Global, key: &Key) -> Result<Row<Override>, AllocError>
    ensures { IfOk result (λ o. o ≡ overrides_of key.now) }
{
    match key.child(&START_OVERRIDE) {
        Some(below) => overrides_in(alloc, below.items()),
        None => Ok(Row::new(alloc)),
    }
}
