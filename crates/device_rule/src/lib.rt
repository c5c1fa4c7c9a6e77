//! Which drivers Plug and Play loads for each device of a control set, in load order, and what prevents it.
//!
//! `device_report` answers the lines on a set by its four keys, and how many of them are findings. Rules: Windows Internals,
//! 4th edition, device enumeration and driver loading; this project's own.
#![tactic(auto)]

mod block;
mod classes;
mod database;
mod device;
mod driver;
mod lines;
mod malformed;
mod named_keys;
mod names;
mod parts;
mod report;
mod scope;
mod stack;
mod values;

pub use block::Block;
pub use device::{Device, Devices};
pub use lines::{DeviceLine, DeviceLines, DeviceState, Driver, DriverState, Field, Role};
pub use named_keys::NamedKeys;
pub use names::{CLASS, CRITICAL_DEVICE_DATABASE, ENUM};
pub use report::{DeviceReport, device_report};
pub use scope::{DeviceSet, Scope, Selection, SetKeys};
