//! The lines on a control set, in their order.

ghost use Rattle.std.specs.Prelude.{◌≡◌, ◌≤◌, ◌+◌, ◌++◌, ◌∷◌, [], map, filter, length, sum_by, IfOk, OnOk};
ghost use Rattle.std.specs.List.{flat_map};
ghost use Rattle.device_rule.specs.Devices.{line_when, block_of, block_findings};
ghost use Rattle.device_rule.specs.Report.{set_of, is_shown, blocks_in, lines_in, of_lines, opening_lines, enum_lines, closing_lines, finding_lines, found_in, set_lines, device_lines, device_findings};

use crate::block::{Block, block_findings, block_of, has_asked};
use crate::classes::class_lines;
use crate::database::{append, put_database};
use crate::device::Device;
use crate::driver::asked_driver;
use crate::lines::{DeviceLine, DeviceLines};
use crate::named_keys::NamedKeys;
use crate::scope::{DeviceSet, Scope, Selection, SetKeys, set_of};
use nt_bytes::{Row, Units};
use std::alloc::{AllocError, Global};

/// The lines on a control set, and how many findings they have.
#[derive(Drop)]
pub struct DeviceReport {
    pub lines: DeviceLines,
    pub found: u64,
}

/// Blocks, in the order of the registry.
type Blocks = Row<Block>;

/// Appends a line where it is found.
fn put_when(lines: &mut DeviceLines, found: bool, line: DeviceLine) -> Result<(), AllocError>
    ensures { OnOk result (lines.new ≡ lines.old ++ line_when found line) }
{
    if found {
        lines.push(line)?;
    }
    Ok(())
}

// ---- blocks

/// Whether the block has the driver and the finding that are asked for.
fn is_shown(only: &Selection, block: &Block) -> bool
    ensures { result ≡ is_shown only.now block.now }
{
    let is_wanted = !only.findings || block_findings(block) != 0;
    has_asked(&only.of, block.lines.as_slice()) && is_wanted
}

fn put_block(only: &Selection, block: Block, blocks: &mut Blocks) -> Result<(), AllocError>
    ensures { OnOk result (blocks.new ≡ blocks.old ++ filter (is_shown only.now) (block ∷ [])) }
{
    if is_shown(only, &block) {
        blocks.push(block)?;
    }
    Ok(())
}

fn shown_blocks(
    alloc: Global,
    only: &Selection,
    scope: &Scope,
    devices: &[Device],
) -> Result<Blocks, AllocError>
    ensures { IfOk result (λ b. b ≡ filter (is_shown only.now) (map (block_of only.now.ids scope.now) devices.now)) }
{
    let mut blocks = Blocks::new(alloc);
    for device in devices {
        put_block(only, block_of(alloc, only.ids, scope, device)?, &mut blocks)?;
    }
    Ok(blocks)
}

/// The blocks that are reported.
fn blocks_in(alloc: Global, set: &DeviceSet, only: &Selection) -> Result<Blocks, AllocError>
    ensures { IfOk result (λ b. b ≡ blocks_in set.now only.now) }
{
    shown_blocks(alloc, only, &set.scope, set.devices.as_slice())
}

// ---- the lines before them

fn put_of(
    alloc: Global,
    services: &NamedKeys,
    of: &Option<Units>,
    lines: &mut DeviceLines,
) -> Result<(), AllocError>
    ensures { OnOk result (lines.new ≡ lines.old ++ of_lines services.now of.now) }
{
    match of {
        Some(name) => {
            let driver = asked_driver(alloc, services, name.as_slice())?;
            lines.push(DeviceLine::Of { driver })
        }
        None => Ok(()),
    }
}

fn opening(
    alloc: Global,
    number: u32,
    set: &DeviceSet,
    only: &Selection,
) -> Result<DeviceLines, AllocError>
    ensures { IfOk result (λ l. l ≡ opening_lines number set.now only.now) }
{
    let mut lines = DeviceLines::new(alloc);
    lines.push(DeviceLine::Set { number })?;
    put_of(alloc, &set.scope.services, &only.of, &mut lines)?;
    let is_missing = (only.ids || only.critical) && !set.has_database;
    put_when(&mut lines, is_missing, DeviceLine::NoDatabase)?;
    Ok(lines)
}

// ---- findings

/// Reports that there is no key `Enum`, and answers how many findings that is.
fn put_enum(set: &DeviceSet, lines: &mut DeviceLines) -> Result<usize, AllocError>
    ensures lines { OnOk result (lines.new ≡ lines.old ++ enum_lines set.now) }
    ensures found { IfOk result (λ n. n ≡ length (enum_lines set.now)) }
{
    if set.has_enum {
        return Ok(0);
    }
    lines.push(DeviceLine::NoEnum)?;
    Ok(1)
}

/// Appends the lines of each block, and answers how many findings they have.
#[tactic(auto, using(crate::proofs::FindingLemmas::few_findings))]
fn put_blocks(blocks: Blocks, lines: &mut DeviceLines) -> Result<usize, AllocError>
    ensures lines { OnOk result (lines.new ≡ lines.old ++ flat_map lines_in blocks) }
    ensures found { IfOk result (λ n. n ≡ sum_by block_findings blocks) }
    ensures fits { IfOk result (λ n. n + length lines.old ≤ length lines.new) }
{
    let mut found = 0;
    for block in blocks.into_vec() {
        let more = block_findings(&block);
        append(lines, block.lines)?;
        let _all = lines.len();
        found += more;
    }
    Ok(found)
}

/// Appends the lines with findings, and answers how many there are.
fn put_findings(
    set: &DeviceSet,
    blocks: Blocks,
    class: DeviceLines,
    lines: &mut DeviceLines,
) -> Result<usize, AllocError>
    ensures lines { OnOk result (lines.new ≡ lines.old ++ (enum_lines set.now ++ flat_map lines_in blocks ++ class)) }
    ensures found { IfOk result (λ n. n ≡ length (enum_lines set.now) + sum_by block_findings blocks + length class) }
{
    let none = put_enum(set, lines)?;
    let told = put_blocks(blocks, lines)?;
    let of_classes = class.len();
    append(lines, class)?;
    let _all = lines.len();
    Ok(none + told + of_classes)
}

/// The same of the blocks and classes of a set.
fn put_found(
    alloc: Global,
    set: &DeviceSet,
    only: &Selection,
    blocks: Blocks,
    lines: &mut DeviceLines,
) -> Result<usize, AllocError>
    requires { blocks ≡ blocks_in set.now only.now }
    ensures lines { OnOk result (lines.new ≡ lines.old ++ finding_lines set.now only.now) }
    ensures found { IfOk result (λ n. n ≡ found_in set.now only.now) }
{
    let class = class_lines(
        alloc,
        &set.scope.services,
        &only.of,
        set.scope.classes.as_slice(),
    )?;
    put_findings(set, blocks, class, lines)
}

// ---- the whole

fn put_closing(
    shown: usize,
    all: usize,
    found: usize,
    lines: &mut DeviceLines,
) -> Result<(), AllocError>
    ensures { OnOk result (lines.new ≡ lines.old ++ closing_lines shown all found) }
{
    lines.push(DeviceLine::Devices {
        count: shown as u64,
        of: all as u64,
    })?;
    lines.push(DeviceLine::Found {
        count: found as u64,
    })?;
    lines.push(DeviceLine::End)
}

fn set_report(
    alloc: Global,
    number: u32,
    set: &DeviceSet,
    only: &Selection,
) -> Result<DeviceReport, AllocError>
    ensures lines { IfOk result (λ r. r.lines ≡ set_lines number set.now only.now) }
    ensures found { IfOk result (λ r. r.found ≡ found_in set.now only.now) }
{
    let blocks = blocks_in(alloc, set, only)?;
    let shown = blocks.len();
    let mut lines = opening(alloc, number, set, only)?;
    let found = put_found(alloc, set, only, blocks, &mut lines)?;
    put_database(alloc, only.critical, &set.scope, &only.of, &mut lines)?;
    put_closing(shown, set.devices.len(), found, &mut lines)?;
    Ok(DeviceReport {
        lines,
        found: found as u64,
    })
}

/// That there is no set of this number.
fn no_set(alloc: Global, number: u32) -> Result<DeviceReport, AllocError>
    ensures lines { IfOk result (λ r. r.lines ≡ DeviceLine.NoSet number ∷ DeviceLine.Found 1 ∷ DeviceLine.End ∷ []) }
    ensures found { IfOk result (λ r. r.found ≡ 1) }
{
    let mut lines = DeviceLines::new(alloc);
    lines.push(DeviceLine::NoSet { number })?;
    lines.push(DeviceLine::Found { count: 1 })?;
    lines.push(DeviceLine::End)?;
    Ok(DeviceReport { lines, found: 1 })
}

/// What is reported of the set of a number by its keys; they are none where there is no such set. Takes n log n time in the keys and
/// what they hold, and in what is reported.
#[tactic(auto, unfolding(crate::specs::Report::device_lines, crate::specs::Report::device_findings))]
pub fn device_report(
    alloc: Global,
    number: u32,
    keys: Option<SetKeys>,
    only: &Selection,
) -> Result<DeviceReport, AllocError>
    ensures lines { IfOk result (λ r. r.lines ≡ device_lines number keys only.now) }
    ensures found { IfOk result (λ r. r.found ≡ device_findings keys only.now) }
{
    match keys {
        Some(keys) => {
            let set = set_of(alloc, keys)?;
            set_report(alloc, number, &set, only)
        }
        None => no_set(alloc, number),
    }
}
