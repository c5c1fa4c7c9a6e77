//! The children of a key and the cells of its lists, as lists of offsets.

ghost use Rattle.std.specs.Prelude.{◌≡◌, ◌≤◌, length, IfOk};
ghost use Rattle.std.specs.Result.{IsOk};
ghost use Rattle.std.specs.List.{All, position_or_len};
ghost use Rattle.hive_model.specs.Lists.{list_at};
ghost use Rattle.key_index.specs.Lists.{AreRead, IsNode, ListsSiblings, children_at, is_behind, lists_at, offsets_of, offsets_in_lists, with_child, without_child};
ghost use Rattle.hive_cells.specs.Sources.{cells_of};

use crate::entries::{entry, entry_count, is_list_of_lists};
use crate::node::{compare_name, name};
use crate::source::payload;
use hive_cells::Source;
use std::alloc::{AllocError, Global};

/// The entries of a list.
fn read_list(alloc: Global, list: &[u8]) -> Result<Vec<u32>, AllocError>
    requires { IsOk (list_at list.now) }
    ensures { IfOk result (λ v. v.items ≡ offsets_of list.now) }
{
    let count = entry_count(list);
    let mut all = Vec::new(alloc);
    all.resize(count, 0)?;
    for place in 0..count {
        all[place] = entry(list, place);
    }
    Ok(all)
}

/// The entries of these lists, in order.
fn read_lists(alloc: Global, cells: &Source, lists: &[u32]) -> Result<Vec<u32>, AllocError>
    requires { AreRead (cells_of cells.now) lists.now }
    ensures { IfOk result (λ v. v.items ≡ offsets_in_lists (cells_of cells.now) lists.now) }
{
    let mut all = Vec::new(alloc);
    for at in lists {
        let part = read_list(alloc, payload(cells, *at))?;
        all.extend_from_slice(&part)?;
    }
    Ok(all)
}

/// The offsets of a key's children, in order.
pub(crate) fn read_children(
    alloc: Global,
    cells: &Source,
    list: u32,
    count: u32,
) -> Result<Vec<u32>, AllocError>
    requires { ListsSiblings (cells_of cells.now) list count }
    ensures { IfOk result (λ v. v.items ≡ children_at (cells_of cells.now) list count) }
{
    if count == 0 {
        return Ok(Vec::new(alloc));
    }
    let bytes = payload(cells, list);
    let offsets = read_list(alloc, bytes)?;
    if is_list_of_lists(bytes) {
        read_lists(alloc, cells, &offsets)
    } else {
        Ok(offsets)
    }
}

/// The offsets of the cells of a key's lists.
#[tactic(auto, unfolding(crate::specs::Lists::lists_at))]
pub(crate) fn read_list_cells(
    alloc: Global,
    cells: &Source,
    list: u32,
    count: u32,
) -> Result<Vec<u32>, AllocError>
    requires { ListsSiblings (cells_of cells.now) list count }
    ensures { IfOk result (λ v. v.items ≡ lists_at (cells_of cells.now) list count) }
{
    let mut all = Vec::new(alloc);
    if count == 0 {
        return Ok(all);
    }
    let bytes = payload(cells, list);
    all.push(list)?;
    if !is_list_of_lists(bytes) {
        return Ok(all);
    }
    let lists = read_list(alloc, bytes)?;
    all.extend_from_slice(&lists)?;
    Ok(all)
}

/// The place of the first key node whose name folds greater, else the end.
fn place_of(cells: &Source, offsets: &[u32], name: &[u16]) -> usize
    requires { All (IsNode (cells_of cells.now)) offsets.now }
    ensures place { result ≡ position_or_len (is_behind (cells_of cells.now) name.now) offsets.now }
    ensures bound { result ≤ length offsets.now }
{
    let mut place = 0;
    for at in offsets {
        if compare_name(cells, *at, name).is_gt() {
            return place;
        }
        place += 1;
    }
    place
}

/// Children with one more, in the place that its name asks for.
pub(crate) fn insert(
    alloc: Global,
    cells: &Source,
    offsets: &[u32],
    child: u32,
) -> Result<Vec<u32>, AllocError>
    requires nodes { All (IsNode (cells_of cells.now)) offsets.now }
    requires child { IsNode (cells_of cells.now) child }
    ensures { IfOk result (λ v. v.items ≡ with_child (cells_of cells.now) child offsets.now) }
{
    let name = name(alloc, cells, child)?;
    let (front, back) = offsets.split_at(place_of(cells, offsets, name.as_slice()));
    let mut all = Vec::new(alloc);
    all.extend_from_slice(front)?;
    all.push(child)?;
    all.extend_from_slice(back)?;
    Ok(all)
}

/// Children without one.
pub(crate) fn remove(alloc: Global, offsets: &[u32], child: u32) -> Result<Vec<u32>, AllocError>
    ensures { IfOk result (λ v. v.items ≡ without_child child offsets.now) }
{
    let mut all = Vec::new(alloc);
    for at in offsets {
        if *at != child {
            all.push(*at)?;
        }
    }
    Ok(all)
}
