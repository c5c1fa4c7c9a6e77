//! Which key nodes name a parent.

ghost use Rattle.std.specs.Prelude.{◌≡◌, ◌≤◌, ◌++◌, ℕ, length, IfOk, OnOk};
ghost use Rattle.hive_model.specs.KeyNode.{key_node_at};
ghost use Rattle.hive_model.specs.Walk.{reading};
ghost use Rattle.salvage_bins.specs.Ground.{ground_of};
ghost use Rattle.salvage_parents.specs.Naming.{AreNaming, listed, parent_in, place_if};

use cell_forms::read_nk;
use nt_bytes::ReadStop;
use salvage_bins::DamagedCells;
use std::alloc::{AllocError, Global};
use std::collections::BTreeMap;

/// The places of key nodes, rising, by the place of the parent that they name.
pub(crate) type ParentIndex = BTreeMap<u32, Vec<u32>>;

// The parent that the key node at an offset names, where an allocated cell with that form begins there.
fn parent_at(alloc: Global, cells: &DamagedCells<'_>, at: u32) -> Result<Option<u32>, AllocError>
    ensures { IfOk result (λ o. o ≡ parent_in (reading key_node_at (ground_of cells.now).cells at)) }
{
    let Ok(payload) = cells.payload(at) else {
        return Ok(None);
    };
    match read_nk(alloc, payload, at) {
        Ok(node) => Ok(Some(node.parent)),
        Err(ReadStop::Memory) => Err(AllocError),
        Err(ReadStop::Fault(_)) => Ok(None),
    }
}

// Adds a place to those of a parent.
fn add_to(
    alloc: Global,
    index: &mut BTreeMap<u32, Vec<u32>>,
    parent: u32,
    at: u32,
) -> Result<(), AllocError>
    ensures { OnOk result ((p : ℕ) → listed index.new p ≡ listed index.old p ++ place_if p (Some parent) at) }
{
    let mut places = match index.remove(&parent) {
        Some(places) => places,
        None => Vec::new(alloc),
    };
    places.push(at)?;
    index.insert(parent, places)?;
    Ok(())
}

// The same where there is a parent.
fn add(
    alloc: Global,
    index: &mut BTreeMap<u32, Vec<u32>>,
    parent: Option<u32>,
    at: u32,
) -> Result<(), AllocError>
    ensures { OnOk result ((p : ℕ) → listed index.new p ≡ listed index.old p ++ place_if p parent at) }
{
    match parent {
        Some(parent) => add_to(alloc, index, parent, at),
        None => Ok(()),
    }
}

/// The index of all key nodes.
pub(crate) fn index_of(
    alloc: Global,
    cells: &DamagedCells<'_>,
) -> Result<BTreeMap<u32, Vec<u32>>, AllocError>
    requires { length cells.now.bytes.now ≤ 268435456 }
    ensures { IfOk result (AreNaming (ground_of cells.now)) }
{
    let mut index = BTreeMap::new(alloc);
    let mut slot = 0;
    let slots = cells.bytes.len() / 8;
    'slots: while slot < slots {
        let at = 8 * slot as u32;
        let parent = parent_at(alloc, cells, at)?;
        add(alloc, &mut index, parent, at)?;
        slot += 1;
    }
    Ok(index)
}

/// The places of the key nodes that name a parent.
pub(crate) fn places_of(index: &BTreeMap<u32, Vec<u32>>, parent: u32) -> &[u32]
    ensures { result.now ≡ listed index.now parent }
{
    match index.get(&parent) {
        Some(places) => places.as_slice(),
        None => &[],
    }
}
