//! Values that aren't of the form that is read.

ghost use Rattle.std.specs.Prelude.{◌≡◌, ◌++◌, map, filter, OnOk};
ghost use Rattle.device_rule.specs.Devices.{field_name, is_no_string, is_no_dword, is_no_list, is_malformed, has_malformed, malformed_lines};

use crate::lines::{DeviceLine, DeviceLines, Field};
use crate::names::{CLASS_GUID, CONFIG_FLAGS, LOWER_FILTERS, SERVICE, UPPER_FILTERS};
use reg_tree::{Key, Value};
use std::alloc::AllocError;

fn field_name(field: Field) -> &'static [u16]
    ensures { result.now ≡ field_name field }
{
    match field {
        Field::Service => &SERVICE,
        Field::ClassGuid => &CLASS_GUID,
        Field::ConfigFlags => &CONFIG_FLAGS,
        Field::LowerFilters => &LOWER_FILTERS,
        Field::UpperFilters => &UPPER_FILTERS,
    }
}

fn is_no_string(value: &Value) -> bool
    ensures { result ≡ is_no_string value.now }
{
    !(value.kind == 1 || value.kind == 2)
}

fn is_no_dword(value: &Value) -> bool
    ensures { result ≡ is_no_dword value.now }
{
    !(value.kind == 4 && value.data().len() == 4)
}

fn is_no_list(value: &Value) -> bool
    ensures { result ≡ is_no_list value.now }
{
    value.kind != 7
}

fn is_malformed(field: Field, value: &Value) -> bool
    ensures { result ≡ is_malformed field value.now }
{
    match field {
        Field::Service | Field::ClassGuid => is_no_string(value),
        Field::ConfigFlags => is_no_dword(value),
        Field::LowerFilters | Field::UpperFilters => is_no_list(value),
    }
}

/// Whether the key has the value, and it isn't of the form that is read.
pub(crate) fn has_malformed(key: &Key, field: Field) -> bool
    ensures { result ≡ has_malformed key.now field }
{
    match key.value(field_name(field)) {
        Some(value) => is_malformed(field, value),
        None => false,
    }
}

fn put_fields(key: &Key, fields: &[Field], lines: &mut DeviceLines) -> Result<(), AllocError>
    ensures { OnOk result (lines.new ≡ lines.old ++ map DeviceLine.Malformed (filter (has_malformed key.now) fields.now)) }
{
    for field in fields {
        if has_malformed(key, *field) {
            lines.push(DeviceLine::Malformed { field: *field })?;
        }
    }
    Ok(())
}

/// The values of a device that aren't of the form that is read.
pub(crate) fn put_malformed(key: &Key, lines: &mut DeviceLines) -> Result<(), AllocError>
    ensures { OnOk result (lines.new ≡ lines.old ++ malformed_lines key.now) }
{
    put_fields(
        key,
        &[
            Field::Service,
            Field::ClassGuid,
            Field::ConfigFlags,
            Field::LowerFilters,
            Field::UpperFilters,
        ],
        lines,
    )
}
