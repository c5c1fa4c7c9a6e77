//! The states of drivers.

ghost use Rattle.std.specs.Prelude.{◌≡◌, IfOk};
ghost use Rattle.start_model.specs.Entries.{is_driver};
ghost use Rattle.device_rule.specs.Drivers.{begins_folded, is_built_in, kind_state, start_state, key_state, state_of, driver_of, key_name, asked_driver, is_prevented, is_boot};

use crate::lines::{Driver, DriverState};
use crate::named_keys::NamedKeys;
use crate::names::DRIVER_OBJECTS;
use nt_bytes::{Units, fold};
use nt_names::startup_names::{START, TYPE};
use reg_tree::Key;
use std::alloc::{AllocError, Global};

/// Whether the name begins with the front, letters of either case taken for one.
fn begins_folded(front: &[u16], name: &[u16]) -> bool
    ensures { result ≡ begins_folded front.now name.now }
{
    let mut xs = front;
    let mut ys = name;
    'units: loop {
        let [x, more_xs @ ..] = xs else {
            return true;
        };
        let [y, more_ys @ ..] = ys else {
            return false;
        };
        if fold(*x) != fold(*y) {
            return false;
        }
        xs = more_xs;
        ys = more_ys;
    }
}

/// Whether it is the object name of a driver that the HAL or the kernel makes.
fn is_built_in(name: &[u16]) -> bool
    ensures { result ≡ is_built_in name.now }
{
    begins_folded(&DRIVER_OBJECTS, name)
}

/// Whether the Type is a driver's: kernel, file system or recognizer.
fn is_driver(kind: u32) -> bool
    ensures { result ≡ is_driver kind }
{
    kind & 0x0b != 0
}

fn kind_state(start: u32, kind: Option<u32>) -> DriverState
    ensures { result ≡ kind_state start kind }
{
    match kind {
        None => DriverState::NoType,
        Some(kind) => {
            if is_driver(kind) {
                DriverState::Ready(start)
            } else {
                DriverState::Kind(kind)
            }
        }
    }
}

fn start_state(start: Option<u32>, kind: Option<u32>) -> DriverState
    ensures { result ≡ start_state start kind }
{
    let Some(start) = start else {
        return DriverState::NoStart;
    };
    if start == 4 {
        return DriverState::Disabled;
    }
    if 4 < start {
        return DriverState::Beyond(start);
    }
    kind_state(start, kind)
}

/// The state of the driver of this key.
fn key_state(key: &Key) -> DriverState
    ensures { result ≡ key_state key.now }
{
    start_state(key.dword(&START), key.dword(&TYPE))
}

/// The state of the driver of this name.
fn state_of(services: &NamedKeys, name: &[u16]) -> DriverState
    ensures { result ≡ state_of services.now name.now }
{
    if is_built_in(name) {
        return DriverState::BuiltIn;
    }
    match services.find(name) {
        Some(key) => key_state(key),
        None => DriverState::NoKey,
    }
}

/// The driver of this name.
pub(crate) fn driver_of(
    alloc: Global,
    services: &NamedKeys,
    name: &[u16],
) -> Result<Driver, AllocError>
    ensures { IfOk result (λ d. d ≡ driver_of services.now name.now) }
{
    let state = state_of(services, name);
    let name = Units::from_slice(alloc, name)?;
    Ok(Driver { name, state })
}

/// The name as the key has it, else as it was given.
fn key_name(alloc: Global, services: &NamedKeys, name: &[u16]) -> Result<Units, AllocError>
    ensures { IfOk result (λ n. n ≡ key_name services.now name.now) }
{
    match services.find(name) {
        Some(key) => Units::from_slice(alloc, key.name()),
        None => Units::from_slice(alloc, name),
    }
}

/// The driver that was asked for.
pub(crate) fn asked_driver(
    alloc: Global,
    services: &NamedKeys,
    name: &[u16],
) -> Result<Driver, AllocError>
    ensures { IfOk result (λ d. d ≡ asked_driver services.now name.now) }
{
    let state = state_of(services, name);
    let name = key_name(alloc, services, name)?;
    Ok(Driver { name, state })
}

/// Whether Plug and Play can't load it.
pub(crate) fn is_prevented(state: DriverState) -> bool
    ensures { result ≡ is_prevented state }
{
    match state {
        DriverState::BuiltIn | DriverState::Ready(_) => false,
        DriverState::NoKey
        | DriverState::NoStart
        | DriverState::Disabled
        | DriverState::Beyond(_)
        | DriverState::NoType
        | DriverState::Kind(_) => true,
    }
}

/// Whether it is loaded with the kernel.
pub(crate) fn is_boot(state: DriverState) -> bool
    ensures { result ≡ is_boot state }
{
    match state {
        DriverState::Ready(start) => start == 0,
        DriverState::BuiltIn
        | DriverState::NoKey
        | DriverState::NoStart
        | DriverState::Disabled
        | DriverState::Beyond(_)
        | DriverState::NoType
        | DriverState::Kind(_) => false,
    }
}
