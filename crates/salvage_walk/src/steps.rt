//! What of a key but its children is salvaged.

ghost use Rattle.std.specs.Prelude.{◌≡◌, [], OnOk, IfOk};
ghost use Rattle.nt_bytes.specs.declared.fault.HiveFaultKind.TheVariants.{FormShort};
ghost use Rattle.hive_model.specs.Walk.{reading};
ghost use Rattle.hive_model.specs.KeyValue.{key_value_at};
ghost use Rattle.cell_forms.specs.Views.{key_node_of};
ghost use Rattle.salvage_bins.specs.Ground.{ground_of};
ghost use Rattle.salvage_walk.specs.Failures.{AreFailures};
ghost use Rattle.salvage_walk.specs.Remembered.{Remembers};
ghost use Rattle.salvage_walk.specs.Walked.{say, state_of};
ghost use Rattle.salvage_walk.specs.Steps.{class_step, item_names, part_line, said_short, security_step, value_line, value_next, values_next, values_step};

use crate::fronts::use_values;
use crate::lines::{KeyPart, Walk, WalkLine};
use crate::lists::Lists;
use crate::names::NameSet;
use crate::parts::use_security;
use crate::values::{take_bytes, take_unless_failed};
use cell_forms::{NkForm, read_vk};
use nt_bytes::{Bytes, HiveFault, HiveFaultKind, Names, ReadStop, Units};
use reg_tree::Values;
use salvage_bins::DamagedCells;
use std::alloc::{AllocError, Global};
use std::collections::BTreeMap;

/// Says this fault of a part of the key at a path.
pub(crate) fn say_part(
    alloc: Global,
    walk: &mut Walk,
    part: KeyPart,
    path: &[Units],
    fault: HiveFault,
) -> Result<(), AllocError>
    ensures { OnOk result (state_of walk.new ≡ say (state_of walk.old) (part_line part path.now fault)) }
{
    let path = Names::from_slice(alloc, path)?;
    walk.say(WalkLine::Part(fault, part, path))
}

/// Says that a list is too short, where it is.
pub(crate) fn say_short(
    alloc: Global,
    walk: &mut Walk,
    short: bool,
    part: KeyPart,
    path: &[Units],
    at: u32,
) -> Result<(), AllocError>
    ensures { OnOk result (state_of walk.new ≡ said_short short part path.now at (state_of walk.old)) }
{
    if !short {
        return Ok(());
    }
    let kind = HiveFaultKind::FormShort;
    say_part(alloc, walk, part, path, HiveFault { kind, at })
}

/// A key's class; empty where a check of it fails.
#[tactic(auto, unfolding(crate::specs::Steps::class_step))]
pub(crate) fn class(
    alloc: Global,
    cells: &DamagedCells<'_>,
    walk: &mut Walk,
    path: &[Units],
    node: &NkForm,
) -> Result<Bytes, AllocError>
    ensures { IfOk result (λ b. (b, state_of walk.new) ≡ class_step (ground_of cells.now) path.now (key_node_of node.now) (state_of walk.old)) }
{
    if node.class_length == 0 {
        return Ok(Bytes::new(alloc));
    }
    match take_bytes(
        alloc,
        cells,
        &mut walk.used,
        u32::from(node.class_length),
        node.class,
    ) {
        Ok(bytes) => Ok(bytes),
        Err(ReadStop::Memory) => Err(AllocError),
        Err(ReadStop::Fault(fault)) => {
            say_part(alloc, walk, KeyPart::Class, path, fault)?;
            Ok(Bytes::new(alloc))
        }
    }
}

/// A key's descriptor; that of the key above where a check of it fails.
#[tactic(auto, unfolding(crate::specs::Steps::security_step))]
pub(crate) fn security(
    alloc: Global,
    cells: &DamagedCells<'_>,
    walk: &mut Walk,
    above: &[u8],
    path: &[Units],
    node: &NkForm,
) -> Result<Bytes, AllocError>
    ensures { IfOk result (λ b. (b, state_of walk.new)
        ≡ security_step (ground_of cells.now) above.now path.now (key_node_of node.now) (state_of walk.old)) }
{
    if node.security == 0xffff_ffff {
        return Ok(Bytes::new(alloc));
    }
    match use_security(alloc, cells, &mut walk.used, node.security) {
        Ok(cell) => Ok(cell.descriptor),
        Err(ReadStop::Memory) => Err(AllocError),
        Err(ReadStop::Fault(fault)) => {
            say_part(alloc, walk, KeyPart::Security, path, fault)?;
            Bytes::from_slice(alloc, above)
        }
    }
}

// The line of a value with this fault, whose cell is at an offset.
fn line_of(
    alloc: Global,
    cells: &DamagedCells<'_>,
    path: &[Units],
    number: usize,
    at: u32,
    fault: HiveFault,
) -> Result<WalkLine, AllocError>
    ensures { IfOk result (λ l. l ≡ value_line path.now number fault (reading key_value_at (ground_of cells.now).cells at)) }
{
    let path = Names::from_slice(alloc, path)?;
    let Ok(payload) = cells.payload(at) else {
        return Ok(WalkLine::ValueAt(fault, number, path));
    };
    match read_vk(alloc, payload, at) {
        Ok(value) => Ok(WalkLine::Value(fault, value.name, path)),
        Err(ReadStop::Memory) => Err(AllocError),
        Err(ReadStop::Fault(_)) => Ok(WalkLine::ValueAt(fault, number, path)),
    }
}

// Adds the value at an offset, if none of its checks fails.
#[tactic(auto, using(crate::proofs::WalkLemmas::pushes), unfolding(crate::specs::Steps::value_next))]
fn value(
    alloc: Global,
    cells: &DamagedCells<'_>,
    walk: &mut Walk,
    path: &[Units],
    taken: &mut NameSet,
    faults: &mut BTreeMap<u32, HiveFault>,
    lists: &mut Lists,
    values: &mut Values,
    number: usize,
    at: u32,
) -> Result<(), AllocError>
    requires named { taken.old ≡ item_names values.old }
    requires judged { AreFailures (ground_of cells.now) taken.old (state_of walk.old).claims faults.old }
    requires remembered { Remembers (ground_of cells.now) (state_of walk.old).claims lists.old }
    ensures stepped { OnOk result ((values.new, state_of walk.new)
        ≡ value_next (ground_of cells.now) path.now number at values.old (state_of walk.old)) }
    ensures known { OnOk result (taken.new ≡ item_names values.new) }
    ensures failed { OnOk result (AreFailures (ground_of cells.now) taken.new (state_of walk.new).claims faults.new) }
    ensures listed { OnOk result (Remembers (ground_of cells.now) (state_of walk.new).claims lists.new) }
{
    match take_unless_failed(alloc, cells, &mut walk.used, lists, taken, faults, at) {
        Ok(value) => {
            let name = value.name.copy(alloc)?;
            taken.add(alloc, name)?;
            values.push(value)
        }
        Err(ReadStop::Memory) => Err(AllocError),
        Err(ReadStop::Fault(fault)) => {
            let line = line_of(alloc, cells, path, number, at, fault)?;
            walk.say(line)
        }
    }
}

// The values at these offsets.
fn values_at(
    alloc: Global,
    cells: &DamagedCells<'_>,
    walk: &mut Walk,
    lists: &mut Lists,
    path: &[Units],
    offsets: &[u32],
) -> Result<Values, AllocError>
    requires { Remembers (ground_of cells.now) (state_of walk.old).claims lists.old }
    ensures walked { IfOk result (λ vs. (vs, state_of walk.new)
        ≡ values_next (ground_of cells.now) path.now 1 offsets.now [] (state_of walk.old)) }
    ensures remembered { OnOk result (Remembers (ground_of cells.now) (state_of walk.new).claims lists.new) }
{
    let mut taken = NameSet::new(alloc);
    let mut faults = BTreeMap::new(alloc);
    let mut values = Values::new(alloc);
    let mut number = 1;
    let mut rest = offsets;
    'values: loop {
        let [at, more @ ..] = rest else {
            return Ok(values);
        };
        value(
            alloc,
            cells,
            walk,
            path,
            &mut taken,
            &mut faults,
            lists,
            &mut values,
            number,
            *at,
        )?;
        number += 1;
        rest = more;
    }
}

/// A key's values.
#[tactic(auto, unfolding(crate::specs::Steps::values_step))]
pub(crate) fn values(
    alloc: Global,
    cells: &DamagedCells<'_>,
    walk: &mut Walk,
    lists: &mut Lists,
    path: &[Units],
    node: &NkForm,
) -> Result<Values, AllocError>
    requires { Remembers (ground_of cells.now) (state_of walk.old).claims lists.old }
    ensures walked { IfOk result (λ vs. (vs, state_of walk.new)
        ≡ values_step (ground_of cells.now) path.now (key_node_of node.now) (state_of walk.old)) }
    ensures listed { OnOk result (Remembers (ground_of cells.now) (state_of walk.new).claims lists.new) }
{
    if node.value_count == 0 {
        return Ok(Values::new(alloc));
    }
    match use_values(
        alloc,
        cells,
        &mut walk.used,
        node.value_count,
        node.value_list,
    ) {
        Ok(list) => {
            say_short(
                alloc,
                walk,
                list.short,
                KeyPart::Values,
                path,
                node.value_list,
            )?;
            values_at(alloc, cells, walk, lists, path, list.offsets.as_slice())
        }
        Err(ReadStop::Memory) => Err(AllocError),
        Err(ReadStop::Fault(fault)) => {
            say_part(alloc, walk, KeyPart::Values, path, fault)?;
            Ok(Values::new(alloc))
        }
    }
}
