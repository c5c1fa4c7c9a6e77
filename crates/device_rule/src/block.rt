//! What is reported of a device.

ghost use Rattle.std.specs.Prelude.{◌≡◌, ◌≤◌, ◌++◌, count_by, if◌then◌else◌, IfOk, OnOk, Some};
ghost use Rattle.std.specs.List.{list_any};
ghost use Rattle.std.specs.Option.{option_copied};
ghost use Rattle.device_rule.specs.Values.{text_of, number_of};
ghost use Rattle.device_rule.specs.Devices.{device_state, is_enabled, class_of, class_label, class_name, called, text_lines, flags_lines, about_lines, block_lines, block_with, block_of, is_fault, block_findings, is_load_of, has_asked};

use crate::database::put_match;
use crate::device::Device;
use crate::driver::is_prevented;
use crate::lines::{DeviceLine, DeviceLines, DeviceState};
use crate::malformed::put_malformed;
use crate::named_keys::NamedKeys;
use crate::names::{CLASS, CLASS_GUID, CONFIG_FLAGS, DEVICE_DESC, FRIENDLY_NAME, LEGACY};
use crate::scope::Scope;
use crate::stack::put_stack;
use crate::values::{number_of, text_of};
use nt_bytes::{Units, same_folded};
use reg_tree::Key;
use std::alloc::{AllocError, Global};

/// The lines on a device, and whether it is enabled.
#[derive(Drop)]
pub struct Block {
    pub enabled: bool,
    pub lines: DeviceLines,
}

// ---- its state

fn device_state(key: &Key) -> DeviceState
    ensures { result ≡ device_state key.now }
{
    if number_of(key, &CONFIG_FLAGS) & 1 == 1 {
        return DeviceState::Disabled;
    }
    if number_of(key, &LEGACY) != 0 {
        return DeviceState::Legacy;
    }
    DeviceState::Enabled
}

fn is_enabled(state: DeviceState) -> bool
    ensures { result ≡ is_enabled state }
{
    match state {
        DeviceState::Enabled => true,
        DeviceState::Disabled | DeviceState::Legacy => false,
    }
}

// ---- its class

/// The key of the class that a text names.
fn class_of<'a>(classes: &'a NamedKeys, guid: &Option<Units>) -> Option<&'a Key>
    ensures { option_copied result ≡ class_of classes.now guid.now }
{
    match guid {
        Some(guid) => classes.find(guid.as_slice()),
        None => None,
    }
}

/// What a class that was found is called.
fn label_of(alloc: Global, guid: &Units, class: &Key) -> Result<Units, AllocError>
    ensures { IfOk result (λ n. n ≡ class_label guid.now (Some class.now)) }
{
    match text_of(alloc, class, &CLASS)? {
        Some(name) => Ok(name),
        None => guid.copy(alloc),
    }
}

fn class_label(alloc: Global, guid: &Units, class: Option<&Key>) -> Result<Units, AllocError>
    ensures { IfOk result (λ n. n ≡ class_label guid.now (option_copied class.entry)) }
{
    match class {
        Some(class) => label_of(alloc, guid, class),
        None => guid.copy(alloc),
    }
}

/// What the class is called.
fn class_name(
    alloc: Global,
    guid: &Option<Units>,
    class: Option<&Key>,
) -> Result<Option<Units>, AllocError>
    ensures { IfOk result (λ n. n ≡ class_name guid.now (option_copied class.entry)) }
{
    match guid {
        Some(guid) => Ok(Some(class_label(alloc, guid, class)?)),
        None => Ok(None),
    }
}

// ---- its values

/// What the device is called.
fn called(alloc: Global, key: &Key) -> Result<Option<Units>, AllocError>
    ensures { IfOk result (λ t. t ≡ called key.now) }
{
    match text_of(alloc, key, &FRIENDLY_NAME)? {
        Some(text) => Ok(Some(text)),
        None => text_of(alloc, key, &DEVICE_DESC),
    }
}

fn put_text(text: Option<Units>, lines: &mut DeviceLines) -> Result<(), AllocError>
    ensures { OnOk result (lines.new ≡ lines.old ++ text_lines text) }
{
    match text {
        Some(text) => lines.push(DeviceLine::Description { text }),
        None => Ok(()),
    }
}

fn put_flags(flags: u32, lines: &mut DeviceLines) -> Result<(), AllocError>
    ensures { OnOk result (lines.new ≡ lines.old ++ flags_lines flags) }
{
    if flags == 0 {
        return Ok(());
    }
    lines.push(DeviceLine::Flags { flags })
}

fn put_about(alloc: Global, key: &Key, lines: &mut DeviceLines) -> Result<(), AllocError>
    ensures { OnOk result (lines.new ≡ lines.old ++ about_lines key.now) }
{
    let text = called(alloc, key)?;
    put_text(text, lines)?;
    put_flags(number_of(key, &CONFIG_FLAGS), lines)?;
    put_malformed(key, lines)
}

// ---- the block

/// The first line.
fn device_line(
    alloc: Global,
    device: &Device,
    guid: &Option<Units>,
    class: Option<&Key>,
) -> Result<DeviceLine, AllocError>
    ensures { IfOk result (λ l. l ≡ DeviceLine.Device (device_state device.now.key) (class_name guid.now (option_copied class.entry)) device.now.path) }
{
    let state = device_state(&device.key);
    let class = class_name(alloc, guid, class)?;
    let path = device.path.copy(alloc)?;
    Ok(DeviceLine::Device { state, class, path })
}

fn block_lines(
    alloc: Global,
    ids: bool,
    scope: &Scope,
    device: &Device,
    guid: &Option<Units>,
    class: Option<&Key>,
) -> Result<DeviceLines, AllocError>
    ensures { IfOk result (λ l. l ≡ block_lines ids scope.now device.now guid.now (option_copied class.entry)) }
{
    let mut lines = DeviceLines::new(alloc);
    lines.push(device_line(alloc, device, guid, class)?)?;
    put_about(alloc, &device.key, &mut lines)?;
    put_stack(alloc, &scope.services, class, &device.key, &mut lines)?;
    put_match(alloc, ids, scope, &device.key, &mut lines)?;
    Ok(lines)
}

fn block_with(
    alloc: Global,
    ids: bool,
    scope: &Scope,
    device: &Device,
    guid: &Option<Units>,
    class: Option<&Key>,
) -> Result<Block, AllocError>
    ensures { IfOk result (λ b. b ≡ block_with ids scope.now device.now guid.now (option_copied class.entry)) }
{
    let enabled = is_enabled(device_state(&device.key));
    let lines = block_lines(alloc, ids, scope, device, guid, class)?;
    Ok(Block { enabled, lines })
}

/// What is reported of a device, with its entry of the database where that is asked for.
pub(crate) fn block_of(
    alloc: Global,
    ids: bool,
    scope: &Scope,
    device: &Device,
) -> Result<Block, AllocError>
    ensures { IfOk result (λ b. b ≡ block_of ids scope.now device.now) }
{
    let guid = text_of(alloc, &device.key, &CLASS_GUID)?;
    let class = class_of(&scope.classes, &guid);
    block_with(alloc, ids, scope, device, &guid, class)
}

// ---- findings

#[tactic(auto, unfolding(crate::specs::Devices::is_fault))]
fn is_fault(line: &DeviceLine) -> bool
    ensures { result ≡ is_fault line.now }
{
    match line {
        DeviceLine::Malformed { field: _ } => true,
        DeviceLine::Load { role: _, driver } => is_prevented(driver.state),
        DeviceLine::Set { number: _ }
        | DeviceLine::NoSet { number: _ }
        | DeviceLine::Of { driver: _ }
        | DeviceLine::NoDatabase
        | DeviceLine::NoEnum
        | DeviceLine::Device {
            state: _,
            class: _,
            path: _,
        }
        | DeviceLine::Description { text: _ }
        | DeviceLine::Flags { flags: _ }
        | DeviceLine::NoService
        | DeviceLine::Bound {
            entry: _,
            driver: _,
        }
        | DeviceLine::Unbound
        | DeviceLine::ClassMalformed {
            field: _,
            class: _,
            key: _,
        }
        | DeviceLine::ClassFilter {
            role: _,
            class: _,
            key: _,
            driver: _,
        }
        | DeviceLine::Critical {
            entry: _,
            driver: _,
        }
        | DeviceLine::Devices { count: _, of: _ }
        | DeviceLine::Found { count: _ }
        | DeviceLine::End => false,
    }
}

/// 1 for a finding, else 0.
fn fault_weight(line: &DeviceLine) -> usize
    ensures weight { result ≡ (if is_fault line.now then 1 else 0) }
    ensures small { result ≤ 1 }
{
    if is_fault(line) { 1 } else { 0 }
}

fn fault_count(lines: &[DeviceLine]) -> usize
    ensures { result ≡ count_by is_fault lines.now }
{
    let mut count = 0;
    for line in lines {
        count += fault_weight(line);
    }
    count
}

/// How many findings the block has.
pub(crate) fn block_findings(block: &Block) -> usize
    ensures { result ≡ block_findings block.now }
{
    if !block.enabled {
        return 0;
    }
    fault_count(block.lines.as_slice())
}

/// Whether the line loads the driver of this name.
fn is_load_of(name: &[u16], line: &DeviceLine) -> bool
    ensures { result ≡ is_load_of name.now line.now }
{
    match line {
        DeviceLine::Load { role: _, driver } => same_folded(name, driver.name.as_slice()),
        DeviceLine::Set { number: _ }
        | DeviceLine::NoSet { number: _ }
        | DeviceLine::Of { driver: _ }
        | DeviceLine::NoDatabase
        | DeviceLine::NoEnum
        | DeviceLine::Device {
            state: _,
            class: _,
            path: _,
        }
        | DeviceLine::Description { text: _ }
        | DeviceLine::Flags { flags: _ }
        | DeviceLine::Malformed { field: _ }
        | DeviceLine::NoService
        | DeviceLine::Bound {
            entry: _,
            driver: _,
        }
        | DeviceLine::Unbound
        | DeviceLine::ClassMalformed {
            field: _,
            class: _,
            key: _,
        }
        | DeviceLine::ClassFilter {
            role: _,
            class: _,
            key: _,
            driver: _,
        }
        | DeviceLine::Critical {
            entry: _,
            driver: _,
        }
        | DeviceLine::Devices { count: _, of: _ }
        | DeviceLine::Found { count: _ }
        | DeviceLine::End => false,
    }
}

fn has_load_of(name: &[u16], lines: &[DeviceLine]) -> bool
    ensures { result ≡ list_any (is_load_of name.now) lines.now }
{
    lines.iter().any(|line| is_load_of(name, line))
}

/// Whether the stack of a block has this name, where one is asked for.
pub(crate) fn has_asked(of: &Option<Units>, lines: &[DeviceLine]) -> bool
    ensures { result ≡ has_asked of.now lines.now }
{
    match of {
        Some(name) => has_load_of(name.as_slice(), lines),
        None => true,
    }
}
