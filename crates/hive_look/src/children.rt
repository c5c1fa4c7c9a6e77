//! The children of a key, and their names.

ghost use Rattle.std.specs.Prelude.{◌≡◌, map, IfOk};
ghost use Rattle.std.specs.Result.{IsOk};
ghost use Rattle.std.specs.List.{All};
ghost use Rattle.hive_model.specs.Lists.{list_at};
ghost use Rattle.hive_model.specs.Footprint.{child_places};
ghost use Rattle.key_index.specs.Lists.{AreRead, IsNode, ListsSiblings, children_at, lists_lists, name_in, offsets_of, offsets_in_lists};
ghost use Rattle.hive_cells.specs.Sources.{cells_of};
ghost use Rattle.hive_look.specs.Places.{IsKeyAt};

use cell_forms::{Offsets, read_list, read_nk};
use hive_cells::Source;
use key_index::payload;
use nt_bytes::{Names, ReadStop, Units, u16_at, u32_at};
use std::alloc::{AllocError, Global};

/// The entries of the list in a payload.
#[tactic(auto, unfolding(key_index::specs::Lists::offsets_of))]
pub(crate) fn entries_in(alloc: Global, list: &[u8]) -> Result<Offsets, AllocError>
    requires { IsOk (list_at list.now) }
    ensures { IfOk result (λ v. v ≡ offsets_of list.now) }
{
    match read_list(alloc, list, 0) {
        Ok(form) => Ok(form.offsets),
        Err(ReadStop::Memory) => Err(AllocError),
        Err(ReadStop::Fault(_)) => unreachable!(),
    }
}

/// Whether the list in a payload lists lists.
pub(crate) fn is_list_of_lists(list: &[u8]) -> bool
    requires { IsOk (list_at list.now) }
    ensures { result ≡ lists_lists list.now }
{
    u16_at(list, 0) == 0x6972
}

/// The entries of these lists, in order.
fn joined(alloc: Global, cells: &Source, lists: &[u32]) -> Result<Offsets, AllocError>
    requires { AreRead (cells_of cells.now) lists.now }
    ensures { IfOk result (λ v. v ≡ offsets_in_lists (cells_of cells.now) lists.now) }
{
    let mut all = Vec::new(alloc);
    for at in lists {
        let list = payload(cells, *at);
        let part = entries_in(alloc, list)?;
        all.extend_from_slice(part.as_slice())?;
    }
    Ok(Offsets::from_vec(all))
}

/// The offsets of that many children, in order, by their list. Where there is none, the list is not looked at.
fn listed(alloc: Global, cells: &Source, list: u32, count: u32) -> Result<Offsets, AllocError>
    requires { ListsSiblings (cells_of cells.now) list count }
    ensures { IfOk result (λ v. v ≡ children_at (cells_of cells.now) list count) }
{
    if count == 0 {
        return Ok(Offsets::new(alloc));
    }
    let bytes = payload(cells, list);
    let offsets = entries_in(alloc, bytes)?;
    if is_list_of_lists(bytes) {
        joined(alloc, cells, offsets.as_slice())
    } else {
        Ok(offsets)
    }
}

/// The offsets of the children of the key at an offset, in order.
pub(crate) fn children(alloc: Global, cells: &Source, at: u32) -> Result<Offsets, AllocError>
    requires { IsKeyAt (cells_of cells.now) at }
    ensures places { IfOk result (λ v. v ≡ child_places (cells_of cells.now) at) }
    ensures nodes { IfOk result (λ v. All (IsNode (cells_of cells.now)) v) }
{
    let node = payload(cells, at);
    let list = u32_at(node, 28);
    let count = u32_at(node, 20);
    listed(alloc, cells, list, count)
}

/// The name of the key at an offset.
#[tactic(auto, unfolding(key_index::specs::Lists::name_of))]
fn name_at(alloc: Global, cells: &Source, at: u32) -> Result<Units, AllocError>
    requires { IsNode (cells_of cells.now) at }
    ensures { IfOk result (λ name. name ≡ name_in (cells_of cells.now) at) }
{
    let node = payload(cells, at);
    match read_nk(alloc, node, 0) {
        Ok(form) => Ok(form.name),
        Err(ReadStop::Memory) => Err(AllocError),
        Err(ReadStop::Fault(_)) => unreachable!(),
    }
}

/// The names of the keys at these offsets, in order.
fn names_at(alloc: Global, cells: &Source, offsets: &[u32]) -> Result<Names, AllocError>
    requires { All (IsNode (cells_of cells.now)) offsets.now }
    ensures { IfOk result (λ names. names ≡ map (name_in (cells_of cells.now)) offsets.now) }
{
    let mut names = Names::new(alloc);
    for at in offsets {
        let name = name_at(alloc, cells, *at)?;
        names.push(name)?;
    }
    Ok(names)
}

/// The names of the children of the key at an offset, in order.
pub fn child_names(alloc: Global, cells: &Source, at: u32) -> Result<Names, AllocError>
    requires { IsKeyAt (cells_of cells.now) at }
    ensures { IfOk result (λ names. names ≡ map (name_in (cells_of cells.now)) (child_places (cells_of cells.now) at)) }
{
    let offsets = children(alloc, cells, at)?;
    names_at(alloc, cells, offsets.as_slice())
}
