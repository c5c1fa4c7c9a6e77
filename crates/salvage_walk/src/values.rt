//! Values with their data.

ghost use Rattle.std.specs.Prelude.{◌≡◌, OnOk};
ghost use Rattle.hive_model.specs.Size.{is_big as is_big_data};
ghost use Rattle.cell_forms.specs.Views.{key_value_of};
ghost use Rattle.salvage_bins.specs.Ground.{ground_of};
ghost use Rattle.salvage_walk.specs.Values.{bytes_part, big_part, celled_part, data_part, value_part};
ghost use Rattle.salvage_walk.specs.Failures.{AreFailures, KeepsFailures};
ghost use Rattle.salvage_walk.specs.Remembered.{KeepsLists, Remembers};
ghost use Rattle.salvage_walk.specs.Walked.{Before, Tries, Takes};

use crate::claims::Used;
use crate::lists::{Lists, SEGMENT, catch_up, learn};
use crate::names::NameSet;
use crate::parts::{use_big_data, use_bytes, use_offsets, use_value};
use crate::segments::try_segments;
use cell_forms::{VkForm, data_inside, read_db, read_vk};
use nt_bytes::{Bytes, HiveFault, HiveVersion, ReadStop};
use reg_tree::Value;
use salvage_bins::DamagedCells;
use std::alloc::{AllocError, Global};
use std::collections::BTreeMap;

/// The first bytes of a cell.
#[tactic(auto, unfolding(crate::specs::Values::bytes_part))]
pub(crate) fn take_bytes(
    alloc: Global,
    cells: &DamagedCells<'_>,
    used: &mut Used,
    count: u32,
    at: u32,
) -> Result<Bytes, ReadStop>
    ensures took { Takes (λ b. b) used.old used.new result (bytes_part count (ground_of cells.now) used.old at) }
    ensures tried { Tries (λ b. b) used.old used.new result (bytes_part count (ground_of cells.now) used.old at) }
{
    use_bytes(alloc, cells, used, count, at)
}

// Big data of that many bytes.
#[tactic(auto, using(crate::proofs::UseLemmas::befores), unfolding(crate::specs::Values::big_part))]
fn try_big(
    alloc: Global,
    cells: &DamagedCells<'_>,
    used: &mut Used,
    lists: &Lists,
    size: u32,
    at: u32,
) -> Result<Bytes, ReadStop>
    requires { Remembers (ground_of cells.now) used.old lists.now }
    ensures { Tries (λ b. b) used.old used.new result (big_part size (ground_of cells.now) used.old at) }
{
    let big = use_big_data(cells, used, size, at)?;
    let count = u32::from(big.segments);
    let entries = use_offsets(cells, used, count, big.list)?;
    try_segments(alloc, cells, used, lists, size, count, big.list, entries)
}

// Data of more bytes than a segment holds are big in version 1.5.
fn is_big(version: HiveVersion, size: u32) -> bool
    ensures { result ≡ is_big_data version size }
{
    match version {
        HiveVersion::V3 => false,
        HiveVersion::V5 => size > SEGMENT,
    }
}

// Data in a cell, or big data.
#[tactic(auto, unfolding(crate::specs::Values::celled_part))]
fn try_celled(
    alloc: Global,
    cells: &DamagedCells<'_>,
    used: &mut Used,
    lists: &Lists,
    size: u32,
    at: u32,
) -> Result<Bytes, ReadStop>
    requires { Remembers (ground_of cells.now) used.old lists.now }
    ensures { Tries (λ b. b) used.old used.new result (celled_part size (ground_of cells.now) used.old at) }
{
    if is_big(cells.version, size) {
        return try_big(alloc, cells, used, lists, size, at);
    }
    take_bytes(alloc, cells, used, size, at)
}

// A value's data.
#[tactic(auto, using(crate::proofs::UseLemmas::befores), unfolding(crate::specs::Values::data_part))]
fn try_data(
    alloc: Global,
    cells: &DamagedCells<'_>,
    used: &mut Used,
    lists: &Lists,
    value: &VkForm,
) -> Result<Bytes, ReadStop>
    requires { Remembers (ground_of cells.now) used.old lists.now }
    ensures { Tries (λ b. b) used.old used.new result (data_part (key_value_of value.now) (ground_of cells.now) used.old) }
{
    let held = data_inside(alloc, value)?;
    match held {
        Some(bytes) => Ok(bytes),
        None => try_celled(alloc, cells, used, lists, value.size, value.offset),
    }
}

// A value with its data. Where a check fails some of its cells may be used.
#[tactic(auto, using(crate::proofs::UseLemmas::befores), unfolding(crate::specs::Values::value_part))]
fn try_value(
    alloc: Global,
    cells: &DamagedCells<'_>,
    used: &mut Used,
    lists: &Lists,
    taken: &NameSet,
    at: u32,
) -> Result<Value, ReadStop>
    requires { Remembers (ground_of cells.now) used.old lists.now }
    ensures { Tries (λ v. v) used.old used.new result (value_part taken.now (ground_of cells.now) used.old at) }
{
    let form = use_value(alloc, cells, used, taken, at)?;
    let bytes = try_data(alloc, cells, used, lists, &form)?;
    Ok(Value {
        name: form.name,
        kind: form.kind,
        bytes,
    })
}

// A value with its data, beside values of these names. Where a check fails none of its cells is used.
#[tactic(auto, using(crate::proofs::UseLemmas::backs))]
fn take_value(
    alloc: Global,
    cells: &DamagedCells<'_>,
    used: &mut Used,
    lists: &Lists,
    taken: &NameSet,
    at: u32,
) -> Result<Value, ReadStop>
    requires { Remembers (ground_of cells.now) used.old lists.now }
    ensures taken { Takes (λ v. v) used.old used.new result (value_part taken.now (ground_of cells.now) used.old at) }
    ensures grown { OnOk result (Before used.old used.new) }
{
    let before = used.len();
    match try_value(alloc, cells, used, lists, taken, at) {
        Err(ReadStop::Fault(fault)) => {
            used.back_to(before);
            Err(ReadStop::Fault(fault))
        }
        other => other,
    }
}

// The list of segments of a value's data, if they are big. Only how long a walk takes rests on it.
fn list_of(cells: &DamagedCells<'_>, value: &VkForm) -> Option<u32> {
    if !is_big(cells.version, value.size) {
        return None;
    }
    let Ok(payload) = cells.payload(value.offset) else {
        return None;
    };
    match read_db(payload, value.offset) {
        Ok(big) => Some(big.list),
        Err(_) => None,
    }
}

// The same of the value at an offset.
fn list_named(alloc: Global, cells: &DamagedCells<'_>, at: u32) -> Result<Option<u32>, AllocError> {
    let Ok(payload) = cells.payload(at) else {
        return Ok(None);
    };
    match read_vk(alloc, payload, at) {
        Ok(value) => Ok(list_of(cells, &value)),
        Err(ReadStop::Memory) => Err(AllocError),
        Err(ReadStop::Fault(_)) => Ok(None),
    }
}

// Remembers the list of segments that a value names which failed.
fn learn_from(
    alloc: Global,
    cells: &DamagedCells<'_>,
    used: &Used,
    lists: &mut Lists,
    at: u32,
) -> Result<(), AllocError>
    requires { Remembers (ground_of cells.now) used.now lists.old }
    ensures { OnOk result (Remembers (ground_of cells.now) used.now lists.new) }
{
    match list_named(alloc, cells, at)? {
        Some(list) => learn(alloc, cells, used, lists, list),
        None => Ok(()),
    }
}

// A value with its data, beside values of these names. Where a check fails none of its cells is used, and its list of segments is
// remembered.
#[tactic(auto, using(crate::proofs::RememberedLemmas::remembering))]
fn take_or_learn(
    alloc: Global,
    cells: &DamagedCells<'_>,
    used: &mut Used,
    lists: &mut Lists,
    taken: &NameSet,
    at: u32,
) -> Result<Value, ReadStop>
    requires { Remembers (ground_of cells.now) used.old lists.old }
    ensures taken { Takes (λ v. v) used.old used.new result (value_part taken.now (ground_of cells.now) used.old at) }
    ensures remembered { KeepsLists (ground_of cells.now) used.new lists.new result }
{
    catch_up(lists, used)?;
    match take_value(alloc, cells, used, lists, taken, at) {
        Ok(value) => Ok(value),
        Err(ReadStop::Memory) => Err(ReadStop::Memory),
        Err(ReadStop::Fault(fault)) => {
            learn_from(alloc, cells, used, lists, at)?;
            Err(ReadStop::Fault(fault))
        }
    }
}

/// A value with its data, beside values of these names, where the faults of some values are known. Where a check fails none of its
/// cells is used. A value that stands has the faults forgotten.
pub(crate) fn take_unless_failed(
    alloc: Global,
    cells: &DamagedCells<'_>,
    used: &mut Used,
    lists: &mut Lists,
    taken: &NameSet,
    faults: &mut BTreeMap<u32, HiveFault>,
    at: u32,
) -> Result<Value, ReadStop>
    requires judged { AreFailures (ground_of cells.now) taken.now used.old faults.old }
    requires remembered { Remembers (ground_of cells.now) used.old lists.old }
    ensures taken { Takes (λ v. v) used.old used.new result (value_part taken.now (ground_of cells.now) used.old at) }
    ensures known { KeepsFailures (ground_of cells.now) taken.now used.new faults.new result }
    ensures listed { KeepsLists (ground_of cells.now) used.new lists.new result }
{
    if let Some(fault) = faults.get(&at) {
        return Err(ReadStop::Fault(*fault));
    }
    match take_or_learn(alloc, cells, used, lists, taken, at) {
        Ok(value) => {
            faults.clear();
            Ok(value)
        }
        Err(ReadStop::Memory) => Err(ReadStop::Memory),
        Err(ReadStop::Fault(fault)) => {
            let _before = faults.insert(at, fault)?;
            Err(ReadStop::Fault(fault))
        }
    }
}
