//! What is read of a control set, and what is asked of it.

ghost use Rattle.std.specs.Prelude.{◌≡◌, IfOk};
ghost use Rattle.device_rule.specs.Values.{children_of};
ghost use Rattle.device_rule.specs.Report.{set_of};

use crate::device::{Devices, devices_of};
use crate::named_keys::NamedKeys;
use crate::parts::children_of;
use nt_bytes::Units;
use reg_tree::Key;
use std::alloc::{AllocError, Global};

/// The keys of a control set that are read, each where it is there.
#[derive(Drop)]
pub struct SetKeys {
    pub services: Option<Key>,
    /// `Enum`.
    pub devices: Option<Key>,
    /// `Class`.
    pub classes: Option<Key>,
    /// `CriticalDeviceDatabase`.
    pub database: Option<Key>,
}

/// What is asked for.
#[derive(Drop)]
pub struct Selection {
    /// The name of a driver, where only what it is loaded for is reported.
    pub of: Option<Units>,
    /// Only the devices with a finding are reported.
    pub findings: bool,
    /// The entry of the database that each device has is reported too.
    pub ids: bool,
    /// The entries of the database are reported too.
    pub critical: bool,
}

/// The keys by which devices are judged: services, classes and entries of the database.
#[derive(Drop)]
pub struct Scope {
    pub services: NamedKeys,
    pub classes: NamedKeys,
    pub database: NamedKeys,
}

/// What the keys of a control set are read as.
#[derive(Drop)]
pub struct DeviceSet {
    /// It has a key `Enum`.
    pub has_enum: bool,
    /// It has a key `CriticalDeviceDatabase`.
    pub has_database: bool,
    pub scope: Scope,
    pub devices: Devices,
}

/// The children of a key, found by name.
fn named(alloc: Global, key: Option<Key>) -> Result<NamedKeys, AllocError>
    ensures { IfOk result (λ k. k ≡ children_of key) }
{
    NamedKeys::new(alloc, children_of(alloc, key))
}

/// The keys by which devices are judged.
fn judged_by(
    alloc: Global,
    services: Option<Key>,
    classes: Option<Key>,
    database: Option<Key>,
) -> Result<Scope, AllocError>
    ensures { IfOk result (λ s. s ≡ record { services = children_of services; classes = children_of classes; database = children_of database }) }
{
    let services = named(alloc, services)?;
    let classes = named(alloc, classes)?;
    let database = named(alloc, database)?;
    Ok(Scope {
        services,
        classes,
        database,
    })
}

/// What the keys of a control set are read as. Takes n log n time in them.
pub(crate) fn set_of(alloc: Global, keys: SetKeys) -> Result<DeviceSet, AllocError>
    ensures { IfOk result (λ s. s ≡ set_of keys) }
{
    let has_enum = keys.devices.is_some();
    let has_database = keys.database.is_some();
    let devices = devices_of(alloc, keys.devices)?;
    let scope = judged_by(alloc, keys.services, keys.classes, keys.database)?;
    Ok(DeviceSet {
        has_enum,
        has_database,
        scope,
        devices,
    })
}
