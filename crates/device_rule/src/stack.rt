//! The drivers that are loaded for a device.

ghost use Rattle.std.specs.Prelude.{◌≡◌, ◌++◌, ◌∷◌, [], codes, IfOk, OnOk};
ghost use Rattle.std.specs.Option.{option_copied};
ghost use Rattle.device_rule.specs.Values.{names_of, text_of};
ghost use Rattle.device_rule.specs.Devices.{load, loads, function_lines, class_names, stack_lines};

use crate::driver::driver_of;
use crate::lines::{DeviceLine, DeviceLines, Role};
use crate::named_keys::NamedKeys;
use crate::names::{LOWER_FILTERS, SERVICE, UPPER_FILTERS};
use crate::values::{names_of, text_of};
use nt_bytes::{Names, Units};
use reg_tree::Key;
use std::alloc::{AllocError, Global};

fn put_load(
    alloc: Global,
    services: &NamedKeys,
    role: Role,
    name: &[u16],
    lines: &mut DeviceLines,
) -> Result<(), AllocError>
    ensures { OnOk result (lines.new ≡ lines.old ++ load services.now role name.now ∷ []) }
{
    let driver = driver_of(alloc, services, name)?;
    lines.push(DeviceLine::Load { role, driver })
}

/// Loads each of these drivers as this.
fn put_loads(
    alloc: Global,
    services: &NamedKeys,
    role: Role,
    names: &[Units],
    lines: &mut DeviceLines,
) -> Result<(), AllocError>
    ensures { OnOk result (lines.new ≡ lines.old ++ loads services.now role names.now) }
{
    for name in names {
        put_load(alloc, services, role, name.as_slice(), lines)?;
    }
    Ok(())
}

/// The filter drivers that a device names.
fn put_own(
    alloc: Global,
    services: &NamedKeys,
    role: Role,
    key: &Key,
    value: &[u16],
    lines: &mut DeviceLines,
) -> Result<(), AllocError>
    ensures { OnOk result (lines.new ≡ lines.old ++ loads services.now role (names_of value.now key.now)) }
{
    let names = names_of(alloc, key, value)?;
    put_loads(alloc, services, role, names.as_slice(), lines)
}

/// The names of a class's value, where there is a class key.
fn class_names(alloc: Global, class: Option<&Key>, value: &[u16]) -> Result<Names, AllocError>
    ensures { IfOk result (λ n. n ≡ class_names value.now (option_copied class.entry)) }
{
    match class {
        Some(class) => names_of(alloc, class, value),
        None => Ok(Names::new(alloc)),
    }
}

/// The filter drivers that its class names.
fn put_class(
    alloc: Global,
    services: &NamedKeys,
    role: Role,
    class: Option<&Key>,
    value: &[u16],
    lines: &mut DeviceLines,
) -> Result<(), AllocError>
    ensures { OnOk result (lines.new ≡ lines.old ++ loads services.now role (class_names value.now (option_copied class.entry))) }
{
    let names = class_names(alloc, class, value)?;
    put_loads(alloc, services, role, names.as_slice(), lines)
}

fn put_named(
    alloc: Global,
    services: &NamedKeys,
    service: Option<Units>,
    lines: &mut DeviceLines,
) -> Result<(), AllocError>
    ensures { OnOk result (lines.new ≡ lines.old ++ function_lines services.now service) }
{
    match service {
        Some(name) => put_load(alloc, services, Role::Function, name.as_slice(), lines),
        None => lines.push(DeviceLine::NoService),
    }
}

/// The function driver.
fn put_function(
    alloc: Global,
    services: &NamedKeys,
    key: &Key,
    lines: &mut DeviceLines,
) -> Result<(), AllocError>
    ensures { OnOk result (lines.new ≡ lines.old ++ function_lines services.now (text_of (codes "Service") key.now)) }
{
    let service = text_of(alloc, key, &SERVICE)?;
    put_named(alloc, services, service, lines)
}

/// The drivers that are loaded for a device of this class, in load order.
pub(crate) fn put_stack(
    alloc: Global,
    services: &NamedKeys,
    class: Option<&Key>,
    key: &Key,
    lines: &mut DeviceLines,
) -> Result<(), AllocError>
    ensures { OnOk result (lines.new ≡ lines.old ++ stack_lines services.now (option_copied class.entry) key.now) }
{
    put_own(alloc, services, Role::Lower, key, &LOWER_FILTERS, lines)?;
    put_class(
        alloc,
        services,
        Role::ClassLower,
        class,
        &LOWER_FILTERS,
        lines,
    )?;
    put_function(alloc, services, key, lines)?;
    put_own(alloc, services, Role::Upper, key, &UPPER_FILTERS, lines)?;
    put_class(
        alloc,
        services,
        Role::ClassUpper,
        class,
        &UPPER_FILTERS,
        lines,
    )
}
