//! What is reported of devices, line by line.

use nt_bytes::{Names, Row, Units};

/// What Plug and Play does with a device.
#[derive(Clone, Copy)]
pub enum DeviceState {
    /// It loads the drivers.
    Enabled,
    /// Bit 0 of ConfigFlags is on: it loads nothing.
    Disabled,
    /// The device was made for a driver that is started by its Start: it loads nothing.
    Legacy,
}

/// Whether a driver can be loaded, and else what prevents it.
#[derive(Clone, Copy)]
pub enum DriverState {
    /// The HAL or the kernel makes it: no key of `Services` has such a name.
    BuiltIn,
    /// `Services` has no such key.
    NoKey,
    /// It has no DWORD `Start`.
    NoStart,
    /// Its Start is 4.
    Disabled,
    /// A Start above 4.
    Beyond(u32),
    /// It has no DWORD `Type`.
    NoType,
    /// A Type that is no driver's.
    Kind(u32),
    /// It can be loaded; its Start.
    Ready(u32),
}

/// A driver by its name, with its state.
#[derive(Drop)]
pub struct Driver {
    pub name: Units,
    pub state: DriverState,
}

/// As what a driver is loaded for a device, in load order.
#[derive(Clone, Copy)]
pub enum Role {
    Lower,
    ClassLower,
    Function,
    Upper,
    ClassUpper,
}

/// A value that names drivers or says whether they are loaded.
#[derive(Clone, Copy)]
pub enum Field {
    Service,
    ClassGuid,
    ConfigFlags,
    LowerFilters,
    UpperFilters,
}

/// A line.
#[derive(Drop)]
pub enum DeviceLine {
    /// The set of this number is reported.
    Set {
        number: u32,
    },
    /// There is no set of this number.
    NoSet {
        number: u32,
    },
    /// The driver that was asked for.
    Of {
        driver: Driver,
    },
    /// The set has no CriticalDeviceDatabase.
    NoDatabase,
    /// The set has no key `Enum`.
    NoEnum,
    /// A device, what its class is called, and its path below `Enum`. The lines up to the next one of these are about it.
    Device {
        state: DeviceState,
        class: Option<Units>,
        path: Names,
    },
    /// What it is called.
    Description {
        text: Units,
    },
    /// Its ConfigFlags.
    Flags {
        flags: u32,
    },
    /// A value of it isn't of the form that is read.
    Malformed {
        field: Field,
    },
    /// A driver that is loaded for it.
    Load {
        role: Role,
        driver: Driver,
    },
    /// It has no function driver.
    NoService,
    /// The entry of the database that it has, and that entry's driver.
    Bound {
        entry: Units,
        driver: Driver,
    },
    /// It has no entry in the database.
    Unbound,
    /// A value of a class key isn't of the form that is read.
    ClassMalformed {
        field: Field,
        class: Units,
        key: Units,
    },
    /// A filter driver of a class is prevented.
    ClassFilter {
        role: Role,
        class: Units,
        key: Units,
        driver: Driver,
    },
    /// An entry of the database whose driver isn't loaded with the kernel.
    Critical {
        entry: Units,
        driver: Driver,
    },
    /// How many devices are reported, of how many.
    Devices {
        count: u64,
        of: u64,
    },
    /// How many findings there were.
    Found {
        count: u64,
    },
    End,
}

/// Lines, the first one first.
pub type DeviceLines = Row<DeviceLine>;
