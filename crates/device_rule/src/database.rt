//! The entries of CriticalDeviceDatabase.

ghost use Rattle.std.specs.Prelude.{◌≡◌, ◌++◌, ◌∷◌, [], IfOk, OnOk};
ghost use Rattle.std.specs.List.{flat_map};
ghost use Rattle.std.specs.Option.{option_copied};
ghost use Rattle.device_rule.specs.Database.{hashed_unit, hashed, bound_lines, entry_lines, id_lines, first_lines, ids_of, match_lines, is_asked, driver_lines, service_lines, critical_line, critical_lines};

use crate::driver::{driver_of, is_boot};
use crate::lines::{DeviceLine, DeviceLines, Driver};
use crate::named_keys::NamedKeys;
use crate::names::{COMPATIBLE_IDS, HARDWARE_ID, SERVICE};
use crate::scope::Scope;
use crate::values::{names_of, text_of};
use nt_bytes::{Names, Units, same_folded};
use reg_tree::Key;
use std::alloc::{AllocError, Global};

// ---- the entry of a device

fn hashed_unit(unit: u16) -> u16
    ensures { result ≡ hashed_unit unit }
{
    if unit == 0x5c { 0x23 } else { unit }
}

/// The name of an ID's entry.
fn hashed(alloc: Global, id: &[u16]) -> Result<Units, AllocError>
    ensures { IfOk result (λ name. name ≡ hashed id.now) }
{
    let units: Vec<u16> = id.iter().map(|unit| hashed_unit(*unit)).collect(alloc)?;
    Ok(Units::from_vec(units))
}

fn bound_lines(
    alloc: Global,
    services: &NamedKeys,
    entry: &[u16],
    service: Option<Units>,
) -> Result<DeviceLines, AllocError>
    ensures { IfOk result (λ l. l ≡ bound_lines services.now entry.now service) }
{
    let mut lines = DeviceLines::new(alloc);
    if let Some(service) = service {
        let driver = driver_of(alloc, services, service.as_slice())?;
        let entry = Units::from_slice(alloc, entry)?;
        lines.push(DeviceLine::Bound { entry, driver })?;
    }
    Ok(lines)
}

fn entry_lines(
    alloc: Global,
    services: &NamedKeys,
    key: Option<&Key>,
) -> Result<DeviceLines, AllocError>
    ensures { IfOk result (λ l. l ≡ entry_lines services.now (option_copied key.entry)) }
{
    match key {
        Some(key) => {
            let service = text_of(alloc, key, &SERVICE)?;
            bound_lines(alloc, services, key.name(), service)
        }
        None => Ok(DeviceLines::new(alloc)),
    }
}

/// The entry of an ID, where it has a driver.
fn id_lines(alloc: Global, scope: &Scope, id: &[u16]) -> Result<DeviceLines, AllocError>
    ensures { IfOk result (λ l. l ≡ id_lines scope.now id.now) }
{
    let name = hashed(alloc, id)?;
    entry_lines(alloc, &scope.services, scope.database.find(name.as_slice()))
}

/// That there is no entry.
fn unbound(alloc: Global) -> Result<DeviceLines, AllocError>
    ensures { IfOk result (λ l. l ≡ DeviceLine.Unbound ∷ []) }
{
    let mut lines = DeviceLines::new(alloc);
    lines.push(DeviceLine::Unbound)?;
    Ok(lines)
}

/// The entry of the first ID that has one with a driver.
fn first_lines(alloc: Global, scope: &Scope, ids: &[Units]) -> Result<DeviceLines, AllocError>
    ensures { IfOk result (λ l. l ≡ first_lines scope.now ids.now) }
{
    let mut rest = ids;
    'ids: loop {
        let [id, more @ ..] = rest else {
            return unbound(alloc);
        };
        let lines = id_lines(alloc, scope, id.as_slice())?;
        if !lines.is_empty() {
            return Ok(lines);
        }
        rest = more;
    }
}

fn put_names(alloc: Global, names: &[Units], out: &mut Names) -> Result<(), AllocError>
    ensures { OnOk result (out.new ≡ out.old ++ names.now) }
{
    for name in names {
        out.push(name.copy(alloc)?)?;
    }
    Ok(())
}

/// The IDs of a device.
fn ids_of(alloc: Global, key: &Key) -> Result<Names, AllocError>
    ensures { IfOk result (λ ids. ids ≡ ids_of key.now) }
{
    let mut ids = names_of(alloc, key, &HARDWARE_ID)?;
    let more = names_of(alloc, key, &COMPATIBLE_IDS)?;
    put_names(alloc, more.as_slice(), &mut ids)?;
    Ok(ids)
}

fn matched(alloc: Global, scope: &Scope, key: &Key) -> Result<DeviceLines, AllocError>
    ensures { IfOk result (λ l. l ≡ first_lines scope.now (ids_of key.now)) }
{
    let ids = ids_of(alloc, key)?;
    first_lines(alloc, scope, ids.as_slice())
}

/// Moves the lines after others.
pub(crate) fn append(lines: &mut DeviceLines, more: DeviceLines) -> Result<(), AllocError>
    ensures { OnOk result (lines.new ≡ lines.old ++ more) }
{
    for line in more.into_vec() {
        lines.push(line)?;
    }
    Ok(())
}

/// The device's entry, where that is asked for.
pub(crate) fn put_match(
    alloc: Global,
    ids: bool,
    scope: &Scope,
    key: &Key,
    lines: &mut DeviceLines,
) -> Result<(), AllocError>
    ensures { OnOk result (lines.new ≡ lines.old ++ match_lines ids scope.now key.now) }
{
    if !ids {
        return Ok(());
    }
    let more = matched(alloc, scope, key)?;
    append(lines, more)
}

// ---- any hardware

/// Whether the driver is the one that is asked for, or none is.
pub(crate) fn is_asked(of: &Option<Units>, driver: &Driver) -> bool
    ensures { result ≡ is_asked of.now driver.now }
{
    match of {
        Some(name) => same_folded(name.as_slice(), driver.name.as_slice()),
        None => true,
    }
}

fn put_driver(
    alloc: Global,
    of: &Option<Units>,
    entry: &[u16],
    driver: Driver,
    lines: &mut DeviceLines,
) -> Result<(), AllocError>
    ensures { OnOk result (lines.new ≡ lines.old ++ driver_lines of.now entry.now driver) }
{
    if is_boot(driver.state) || !is_asked(of, &driver) {
        return Ok(());
    }
    let entry = Units::from_slice(alloc, entry)?;
    lines.push(DeviceLine::Critical { entry, driver })
}

fn put_service(
    alloc: Global,
    services: &NamedKeys,
    of: &Option<Units>,
    entry: &[u16],
    service: Option<Units>,
    lines: &mut DeviceLines,
) -> Result<(), AllocError>
    ensures { OnOk result (lines.new ≡ lines.old ++ service_lines services.now of.now entry.now service) }
{
    match service {
        Some(service) => {
            let driver = driver_of(alloc, services, service.as_slice())?;
            put_driver(alloc, of, entry, driver, lines)
        }
        None => Ok(()),
    }
}

fn put_critical(
    alloc: Global,
    services: &NamedKeys,
    of: &Option<Units>,
    key: &Key,
    lines: &mut DeviceLines,
) -> Result<(), AllocError>
    ensures { OnOk result (lines.new ≡ lines.old ++ critical_line services.now of.now key.now) }
{
    let service = text_of(alloc, key, &SERVICE)?;
    put_service(alloc, services, of, key.name(), service, lines)
}

fn put_entries(
    alloc: Global,
    services: &NamedKeys,
    of: &Option<Units>,
    keys: &[Key],
    lines: &mut DeviceLines,
) -> Result<(), AllocError>
    ensures { OnOk result (lines.new ≡ lines.old ++ flat_map (critical_line services.now of.now) keys.now) }
{
    for key in keys {
        put_critical(alloc, services, of, key, lines)?;
    }
    Ok(())
}

/// The entries of the database, where they are asked for.
pub(crate) fn put_database(
    alloc: Global,
    critical: bool,
    scope: &Scope,
    of: &Option<Units>,
    lines: &mut DeviceLines,
) -> Result<(), AllocError>
    ensures { OnOk result (lines.new ≡ lines.old ++ critical_lines critical scope.now of.now) }
{
    if !critical {
        return Ok(());
    }
    put_entries(alloc, &scope.services, of, scope.database.as_slice(), lines)
}
