//! The filter drivers of device classes.

ghost use Rattle.std.specs.Prelude.{◌≡◌, ◌++◌, map, filter, IfOk, OnOk};
ghost use Rattle.device_rule.specs.Values.{names_of};
ghost use Rattle.device_rule.specs.Devices.{has_malformed};
ghost use Rattle.device_rule.specs.Classes.{label_of, malformed_at, malformed_of, filter_when, filter_line, filter_lines, class_lines, all_class_lines};

use crate::database::is_asked;
use crate::driver::{driver_of, is_prevented};
use crate::lines::{DeviceLine, DeviceLines, Driver, Field, Role};
use crate::malformed::has_malformed;
use crate::named_keys::NamedKeys;
use crate::names::{CLASS, LOWER_FILTERS, UPPER_FILTERS};
use crate::values::{names_of, text_of};
use nt_bytes::Units;
use reg_tree::Key;
use std::alloc::{AllocError, Global};

/// What the class of a key is called.
fn label_of(alloc: Global, key: &Key) -> Result<Units, AllocError>
    ensures { IfOk result (λ n. n ≡ label_of key.now) }
{
    match text_of(alloc, key, &CLASS)? {
        Some(name) => Ok(name),
        None => Units::from_slice(alloc, key.name()),
    }
}

// ---- malformed lists

fn malformed_at(alloc: Global, key: &Key, field: Field) -> Result<DeviceLine, AllocError>
    ensures { IfOk result (λ l. l ≡ malformed_at key.now field) }
{
    let class = label_of(alloc, key)?;
    let key = Units::from_slice(alloc, key.name())?;
    Ok(DeviceLine::ClassMalformed { field, class, key })
}

fn put_fields(
    alloc: Global,
    key: &Key,
    fields: &[Field],
    lines: &mut DeviceLines,
) -> Result<(), AllocError>
    ensures { OnOk result (lines.new ≡ lines.old ++ map (malformed_at key.now) (filter (has_malformed key.now) fields.now)) }
{
    for field in fields {
        if has_malformed(key, *field) {
            lines.push(malformed_at(alloc, key, *field)?)?;
        }
    }
    Ok(())
}

fn put_malformed(
    alloc: Global,
    of: &Option<Units>,
    key: &Key,
    lines: &mut DeviceLines,
) -> Result<(), AllocError>
    ensures { OnOk result (lines.new ≡ lines.old ++ malformed_of of.now key.now) }
{
    match of {
        Some(_) => Ok(()),
        None => put_fields(
            alloc,
            key,
            &[Field::LowerFilters, Field::UpperFilters],
            lines,
        ),
    }
}

// ---- prevented filters

fn put_filter(
    alloc: Global,
    of: &Option<Units>,
    role: Role,
    key: &Key,
    driver: Driver,
    lines: &mut DeviceLines,
) -> Result<(), AllocError>
    ensures { OnOk result (lines.new ≡ lines.old ++ filter_when of.now role key.now driver) }
{
    if !(is_prevented(driver.state) && is_asked(of, &driver)) {
        return Ok(());
    }
    let class = label_of(alloc, key)?;
    let key = Units::from_slice(alloc, key.name())?;
    lines.push(DeviceLine::ClassFilter {
        role,
        class,
        key,
        driver,
    })
}

fn put_name(
    alloc: Global,
    services: &NamedKeys,
    of: &Option<Units>,
    role: Role,
    key: &Key,
    name: &[u16],
    lines: &mut DeviceLines,
) -> Result<(), AllocError>
    ensures { OnOk result (lines.new ≡ lines.old ++ filter_line services.now of.now role key.now name.now) }
{
    let driver = driver_of(alloc, services, name)?;
    put_filter(alloc, of, role, key, driver, lines)
}

fn put_each(
    alloc: Global,
    services: &NamedKeys,
    of: &Option<Units>,
    role: Role,
    key: &Key,
    names: &[Units],
    lines: &mut DeviceLines,
) -> Result<(), AllocError>
    ensures { OnOk result (lines.new ≡ lines.old ++ filter_lines services.now of.now role key.now names.now) }
{
    for name in names {
        put_name(alloc, services, of, role, key, name.as_slice(), lines)?;
    }
    Ok(())
}

/// The prevented filter drivers of a list.
fn put_filters(
    alloc: Global,
    services: &NamedKeys,
    of: &Option<Units>,
    role: Role,
    key: &Key,
    value: &[u16],
    lines: &mut DeviceLines,
) -> Result<(), AllocError>
    ensures { OnOk result (lines.new ≡ lines.old ++ filter_lines services.now of.now role key.now (names_of value.now key.now)) }
{
    let names = names_of(alloc, key, value)?;
    put_each(alloc, services, of, role, key, names.as_slice(), lines)
}

// ---- the class

fn put_class(
    alloc: Global,
    services: &NamedKeys,
    of: &Option<Units>,
    key: &Key,
    lines: &mut DeviceLines,
) -> Result<(), AllocError>
    ensures { OnOk result (lines.new ≡ lines.old ++ class_lines services.now of.now key.now) }
{
    put_malformed(alloc, of, key, lines)?;
    put_filters(alloc, services, of, Role::Lower, key, &LOWER_FILTERS, lines)?;
    put_filters(alloc, services, of, Role::Upper, key, &UPPER_FILTERS, lines)
}

fn put_classes(
    alloc: Global,
    services: &NamedKeys,
    of: &Option<Units>,
    keys: &[Key],
    lines: &mut DeviceLines,
) -> Result<(), AllocError>
    ensures { OnOk result (lines.new ≡ lines.old ++ all_class_lines services.now of.now keys.now) }
{
    for key in keys {
        put_class(alloc, services, of, key, lines)?;
    }
    Ok(())
}

/// What is wrong with the filter drivers of the classes.
pub(crate) fn class_lines(
    alloc: Global,
    services: &NamedKeys,
    of: &Option<Units>,
    keys: &[Key],
) -> Result<DeviceLines, AllocError>
    ensures { IfOk result (λ l. l ≡ all_class_lines services.now of.now keys.now) }
{
    let mut lines = DeviceLines::new(alloc);
    put_classes(alloc, services, of, keys, &mut lines)?;
    Ok(lines)
}
