//! The devices of a control set.

ghost use Rattle.std.specs.Prelude.{◌≡◌, ◌++◌, ◌∷◌, [], map, IfOk, OnOk};
ghost use Rattle.std.specs.List.{flat_map};
ghost use Rattle.device_rule.specs.Devices.{device_at, below_device, below_enumerator, devices_of};

use crate::parts::{children_of, parted};
use nt_bytes::{Names, Row, Units};
use reg_tree::Key;
use std::alloc::{AllocError, Global};

/// An instance of a device: its path below `Enum`, and its key.
#[derive(Drop)]
pub struct Device {
    pub path: Names,
    pub key: Key,
}

/// Devices, in the order of the registry.
pub type Devices = Row<Device>;

/// The path by these three names.
fn path(
    alloc: Global,
    enumerator: &[u16],
    device: &[u16],
    instance: &[u16],
) -> Result<Names, AllocError>
    ensures { IfOk result (λ p. p ≡ enumerator.now ∷ device.now ∷ instance.now ∷ []) }
{
    let mut path = Names::new(alloc);
    path.push(Units::from_slice(alloc, enumerator)?)?;
    path.push(Units::from_slice(alloc, device)?)?;
    path.push(Units::from_slice(alloc, instance)?)?;
    Ok(path)
}

fn instance(
    alloc: Global,
    enumerator: &[u16],
    device: &[u16],
    key: Key,
) -> Result<Device, AllocError>
    ensures { IfOk result (λ d. d ≡ device_at enumerator.now device.now key) }
{
    let path = path(alloc, enumerator, device, key.name())?;
    Ok(Device { path, key })
}

/// The instances of a device.
fn put_instances(
    alloc: Global,
    enumerator: &[u16],
    device: &[u16],
    keys: Vec<Key>,
    out: &mut Devices,
) -> Result<(), AllocError>
    ensures { OnOk result (out.new ≡ out.old ++ map (device_at enumerator.now device.now) keys.items) }
{
    for key in keys {
        out.push(instance(alloc, enumerator, device, key)?)?;
    }
    Ok(())
}

fn put_device(
    alloc: Global,
    enumerator: &[u16],
    key: Key,
    out: &mut Devices,
) -> Result<(), AllocError>
    ensures { OnOk result (out.new ≡ out.old ++ below_device enumerator.now key) }
{
    let (name, keys) = parted(key);
    put_instances(alloc, enumerator, name.as_slice(), keys, out)
}

/// The instances of an enumerator's devices.
fn put_devices(
    alloc: Global,
    enumerator: &[u16],
    keys: Vec<Key>,
    out: &mut Devices,
) -> Result<(), AllocError>
    ensures { OnOk result (out.new ≡ out.old ++ flat_map (below_device enumerator.now) keys.items) }
{
    for key in keys {
        put_device(alloc, enumerator, key, out)?;
    }
    Ok(())
}

fn put_enumerator(alloc: Global, key: Key, out: &mut Devices) -> Result<(), AllocError>
    ensures { OnOk result (out.new ≡ out.old ++ below_enumerator key) }
{
    let (name, keys) = parted(key);
    put_devices(alloc, name.as_slice(), keys, out)
}

fn put_enumerators(alloc: Global, keys: Vec<Key>, out: &mut Devices) -> Result<(), AllocError>
    ensures { OnOk result (out.new ≡ out.old ++ flat_map below_enumerator keys.items) }
{
    for key in keys {
        put_enumerator(alloc, key, out)?;
    }
    Ok(())
}

/// The keys three levels below `Enum`, where that is there.
pub(crate) fn devices_of(alloc: Global, key: Option<Key>) -> Result<Devices, AllocError>
    ensures { IfOk result (λ d. d ≡ devices_of key) }
{
    let mut out = Devices::new(alloc);
    put_enumerators(alloc, children_of(alloc, key), &mut out)?;
    Ok(out)
}
