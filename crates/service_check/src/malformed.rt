//! Values that aren't of the form that is read.

ghost use Rattle.std.specs.Prelude.{◌≡◌, ◌++◌, true, map, filter, OnOk, IfOk};
ghost use Rattle.std.specs.List.{list_any};
ghost use Rattle.service_check.specs.Children.{field_name, is_some_unit, has_rest, is_no_dword, is_no_string, is_no_list, is_malformed, has_malformed, malformed, malformed_faults};

use answer_lines::check_lines::{Fault, Faults, Field};
use nt_bytes::wide;
use nt_names::startup_names::{
    DEPEND_ON_GROUP, DEPEND_ON_SERVICE, ERROR_CONTROL, GROUP, START, TAG, TYPE,
};
use reg_tree::{Key, Value};
use std::alloc::{AllocError, Global};

/// Appends a fault for each value that isn't of its form.
pub(crate) fn put_malformed(alloc: Global, key: &Key, faults: &mut Faults) -> Result<(), AllocError>
    ensures { OnOk result (faults.new ≡ faults.old ++ malformed_faults key.now) }
{
    put_fields(
        alloc,
        key,
        &[
            Field::Start,
            Field::Type,
            Field::ErrorControl,
            Field::Group,
            Field::Tag,
            Field::DependOnService,
            Field::DependOnGroup,
        ],
        faults,
    )
}

fn put_fields(
    alloc: Global,
    key: &Key,
    fields: &[Field],
    faults: &mut Faults,
) -> Result<(), AllocError>
    ensures { OnOk result (faults.new ≡ faults.old ++ map malformed (filter (has_malformed key.now) fields.now)) }
{
    for field in fields {
        if has_malformed(alloc, key, *field)? {
            faults.push(Fault::Malformed(*field))?;
        }
    }
    Ok(())
}

fn field_name(field: Field) -> &'static [u16]
    ensures { result.now ≡ field_name field }
{
    match field {
        Field::Start => &START,
        Field::Type => &TYPE,
        Field::ErrorControl => &ERROR_CONTROL,
        Field::Group => &GROUP,
        Field::Tag => &TAG,
        Field::DependOnService => &DEPEND_ON_SERVICE,
        Field::DependOnGroup => &DEPEND_ON_GROUP,
    }
}

fn has_malformed(alloc: Global, key: &Key, field: Field) -> Result<bool, AllocError>
    ensures { IfOk result (λ b. b ≡ has_malformed key.now field) }
{
    match key.value(field_name(field)) {
        Some(value) => is_malformed(alloc, field, value),
        None => Ok(false),
    }
}

fn is_malformed(alloc: Global, field: Field, value: &Value) -> Result<bool, AllocError>
    ensures { IfOk result (λ b. b ≡ is_malformed field value.now) }
{
    match field {
        Field::Start | Field::Type | Field::ErrorControl | Field::Tag => Ok(is_no_dword(value)),
        Field::Group => Ok(is_no_string(value)),
        Field::DependOnService | Field::DependOnGroup => is_no_list(alloc, value),
    }
}

fn is_no_dword(value: &Value) -> bool
    ensures { result ≡ is_no_dword value.now }
{
    !(value.kind == 4 && value.data().len() == 4)
}

fn is_no_string(value: &Value) -> bool
    ensures { result ≡ is_no_string value.now }
{
    !(value.kind == 1 || value.kind == 2)
}

fn is_no_list(alloc: Global, value: &Value) -> Result<bool, AllocError>
    ensures { IfOk result (λ b. b ≡ is_no_list value.now) }
{
    let units = wide(alloc, value.data())?;
    Ok(value.kind != 7 || has_rest(units.as_slice()))
}

/// Whether something stands after the first empty string.
fn has_rest(units: &[u16]) -> bool
    ensures { result ≡ has_rest true units.now }
{
    let mut fresh = true;
    let mut rest = units;
    'units: loop {
        let [unit, more @ ..] = rest else {
            return false;
        };
        let is_zero = *unit == 0;
        if is_zero && fresh {
            return has_some_unit(more);
        }
        fresh = is_zero;
        rest = more;
    }
}

fn has_some_unit(units: &[u16]) -> bool
    ensures { result ≡ list_any is_some_unit units.now }
{
    units.iter().any(|unit| *unit != 0)
}
