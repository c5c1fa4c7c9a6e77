//! The cells that a key and the keys below it use, in the order of the book's walk.

ghost use Rattle.std.specs.Prelude.{◌≡◌, ◌≤◌, ◌*◌, ◌++◌, [], false, length, flat_map, OnOk};
ghost use Rattle.std.specs.List.{All};
ghost use Rattle.hive_model.specs.Lists.{numbers_in};
ghost use Rattle.hive_model.specs.Walk.{value_checks};
ghost use Rattle.hive_model.specs.Footprint.{used_in, security_cell_at, list_cells_at};
ghost use Rattle.key_index.specs.Lists.{payload_in};
ghost use Rattle.hive_cells.specs.Sources.{cells_of};
ghost use Rattle.edited_cells.specs.Owned.{class_cell_at};
ghost use Rattle.edited_cells.specs.Revalues.{all_value_cells, cells_of_values};
ghost use Rattle.edited_cells.specs.Uses.{own_uses, plain, secure, tree_uses};
ghost use Rattle.hive_look.specs.Places.{IsItemHere, IsKeyAt};

use crate::children::{children, entries_in, is_list_of_lists};
use crate::data::data_places;
use hive_cells::Source;
use hive_pack::NOWHERE;
use key_index::payload;
use nt_bytes::{u16_at, u32_at};
use std::alloc::{AllocError, Global};

/// The payload of the node of a key.
fn node_at<'a>(cells: &Source<'a>, at: u32) -> &'a [u8]
    requires { IsKeyAt (cells_of cells.now) at }
    ensures long { 76 ≤ length result.now }
    ensures value { result.now ≡ payload_in (cells_of cells.now) at }
{
    payload(cells, at)
}

/// Adds cells that are used, not as security.
fn push_plain(uses: &mut Vec<(u32, bool)>, cells: &[u32]) -> Result<(), AllocError>
    ensures { OnOk result (uses.new.items ≡ uses.old.items ++ plain cells.now) }
{
    for at in cells {
        uses.push((*at, false))?;
    }
    Ok(())
}

/// Adds the cell of a key's class, if there is one.
fn push_class(cells: &Source, at: u32, uses: &mut Vec<(u32, bool)>) -> Result<(), AllocError>
    requires { IsKeyAt (cells_of cells.now) at }
    ensures { OnOk result (uses.new.items ≡ uses.old.items ++ plain (class_cell_at (cells_of cells.now) at)) }
{
    let node = node_at(cells, at);
    let size = u16_at(node, 74);
    if size == 0 {
        return Ok(());
    }
    let class = u32_at(node, 48);
    uses.push((class, false))?;
    Ok(())
}

/// Adds the cell of a key's security, if there is one.
fn push_security(cells: &Source, at: u32, uses: &mut Vec<(u32, bool)>) -> Result<(), AllocError>
    requires { IsKeyAt (cells_of cells.now) at }
    ensures { OnOk result (uses.new.items ≡ uses.old.items ++ secure (security_cell_at (cells_of cells.now) at)) }
{
    let node = node_at(cells, at);
    let security = u32_at(node, 44);
    if security == NOWHERE {
        return Ok(());
    }
    uses.push((security, true))?;
    Ok(())
}

/// Adds the cells of a value: its own, and those of its data.
fn push_value(
    alloc: Global,
    cells: &Source,
    at: u32,
    uses: &mut Vec<(u32, bool)>,
) -> Result<(), AllocError>
    requires { IsItemHere (cells_of cells.now) at }
    ensures { OnOk result (uses.new.items ≡ uses.old.items ++ plain (used_in (value_checks (cells_of cells.now) [] at))) }
{
    uses.push((at, false))?;
    let data = data_places(alloc, cells, at)?;
    push_plain(uses, data.as_slice())?;
    Ok(())
}

/// Adds the cells of that many values in a value list.
fn push_listed(
    alloc: Global,
    cells: &Source,
    list: &[u8],
    count: u32,
    uses: &mut Vec<(u32, bool)>,
) -> Result<(), AllocError>
    requires long { 4 * count ≤ length list.now }
    requires values { All (IsItemHere (cells_of cells.now)) (numbers_in 4 count list.now) }
    ensures { OnOk result (uses.new.items ≡ uses.old.items ++ plain (cells_of_values (cells_of cells.now) (numbers_in 4 count list.now))) }
{
    let mut rest = list;
    let mut left = count;
    while left > 0 {
        let at = u32_at(rest, 0);
        push_value(alloc, cells, at, uses)?;
        rest = &rest[4..];
        left -= 1;
    }
    Ok(())
}

/// Adds the cells of a key's values and of its value list.
fn push_values(
    alloc: Global,
    cells: &Source,
    at: u32,
    uses: &mut Vec<(u32, bool)>,
) -> Result<(), AllocError>
    requires { IsKeyAt (cells_of cells.now) at }
    ensures { OnOk result (uses.new.items ≡ uses.old.items ++ plain (all_value_cells (cells_of cells.now) at)) }
{
    let node = node_at(cells, at);
    let count = u32_at(node, 36);
    if count == 0 {
        return Ok(());
    }
    let place = u32_at(node, 40);
    uses.push((place, false))?;
    let list = payload(cells, place);
    push_listed(alloc, cells, list, count, uses)?;
    Ok(())
}

/// Adds the cells of a key's subkey lists.
fn push_lists(
    alloc: Global,
    cells: &Source,
    at: u32,
    uses: &mut Vec<(u32, bool)>,
) -> Result<(), AllocError>
    requires { IsKeyAt (cells_of cells.now) at }
    ensures { OnOk result (uses.new.items ≡ uses.old.items ++ plain (list_cells_at (cells_of cells.now) at)) }
{
    let node = node_at(cells, at);
    let count = u32_at(node, 20);
    if count == 0 {
        return Ok(());
    }
    let list = u32_at(node, 28);
    uses.push((list, false))?;
    let bytes = payload(cells, list);
    if !is_list_of_lists(bytes) {
        return Ok(());
    }
    let lists = entries_in(alloc, bytes)?;
    push_plain(uses, lists.as_slice())?;
    Ok(())
}

/// Adds the cells of a key but for its children.
fn push_own(
    alloc: Global,
    cells: &Source,
    at: u32,
    uses: &mut Vec<(u32, bool)>,
) -> Result<(), AllocError>
    requires { IsKeyAt (cells_of cells.now) at }
    ensures { OnOk result (uses.new.items ≡ uses.old.items ++ own_uses (cells_of cells.now) at) }
{
    uses.push((at, false))?;
    push_class(cells, at, uses)?;
    push_security(cells, at, uses)?;
    push_values(alloc, cells, at, uses)?;
    push_lists(alloc, cells, at, uses)?;
    Ok(())
}

/// Adds the cells that a key and the keys below it use, that many levels down.
#[cycle(uses)]
pub fn push_key(
    alloc: Global,
    cells: &Source,
    left: u32,
    at: u32,
    uses: &mut Vec<(u32, bool)>,
) -> Result<(), AllocError>
    requires { IsKeyAt (cells_of cells.now) at }
    ensures { OnOk result (uses.new.items ≡ uses.old.items ++ tree_uses left (cells_of cells.now) at) }
{
    if left == 0 {
        return Ok(());
    }
    push_own(alloc, cells, at, uses)?;
    let below = children(alloc, cells, at)?;
    push_keys(alloc, cells, left - 1, below.as_slice(), uses)?;
    Ok(())
}

/// Adds those of the keys at these offsets, in sequence.
#[cycle(uses)]
fn push_keys(
    alloc: Global,
    cells: &Source,
    left: u32,
    offsets: &[u32],
    uses: &mut Vec<(u32, bool)>,
) -> Result<(), AllocError>
    requires { All (IsKeyAt (cells_of cells.now)) offsets.now }
    ensures { OnOk result (uses.new.items ≡ uses.old.items ++ flat_map (tree_uses left (cells_of cells.now)) offsets.now) }
{
    for at in offsets {
        push_key(alloc, cells, left, *at, uses)?;
    }
    Ok(())
}
