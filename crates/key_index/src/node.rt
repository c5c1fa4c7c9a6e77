//! The names of key nodes, compared where they are stored.

ghost use Rattle.std.specs.Prelude.{◌≡◌, ◌+◌, slice_range, IfOk};
ghost use Rattle.std.specs.Result.{IsOk};
ghost use Rattle.nt_bytes.specs.Fields.{u16_in};
ghost use Rattle.nt_bytes.specs.Folding.{folded_order};
ghost use Rattle.nt_bytes.specs.Text.{wide_of};
ghost use Rattle.hive_model.specs.StoredNames.{stored_name};
ghost use Rattle.hive_model.specs.KeyNode.{is_narrow_key, key_node_at};
ghost use Rattle.key_index.specs.Lists.{IsNode, name_of, name_in};
ghost use Rattle.hive_cells.specs.Sources.{cells_of};

use crate::source::payload;
use hive_cells::Source;
use nt_bytes::{Units, fold, narrow, u16_at, wide};
use std::alloc::{AllocError, Global};
use std::cmp::Ordering;

/// The order of a name of one byte a unit and another name.
fn compare_narrow(stored: &[u8], name: &[u16]) -> Ordering
    ensures { result ≡ folded_order stored.now name.now }
{
    let mut xs = stored;
    let mut ys = name;
    'units: loop {
        let [x, more_xs @ ..] = xs else {
            return 0.cmp(&ys.len());
        };
        let [y, more_ys @ ..] = ys else {
            return Ordering::Greater;
        };
        let order = fold(u16::from(*x)).cmp(&fold(*y));
        if order != Ordering::Equal {
            return order;
        }
        xs = more_xs;
        ys = more_ys;
    }
}

/// The order of a name of two bytes a unit and another name.
fn compare_wide(stored: &[u8], name: &[u16]) -> Ordering
    ensures { result ≡ folded_order (wide_of stored.now) name.now }
{
    let mut xs = stored;
    let mut ys = name;
    'units: loop {
        let [low, high, more_xs @ ..] = xs else {
            return 0.cmp(&ys.len());
        };
        let [y, more_ys @ ..] = ys else {
            return Ordering::Greater;
        };
        let order = fold(u16::from_le_bytes([*low, *high])).cmp(&fold(*y));
        if order != Ordering::Equal {
            return order;
        }
        xs = more_xs;
        ys = more_ys;
    }
}

fn compare_stored(is_narrow: bool, stored: &[u8], name: &[u16]) -> Ordering
    ensures { result ≡ folded_order (stored_name is_narrow stored.now) name.now }
{
    if is_narrow {
        compare_narrow(stored, name)
    } else {
        compare_wide(stored, name)
    }
}

/// The bytes that the name of the key node in a payload is stored in.
pub(crate) fn stored_bytes(node: &[u8]) -> &[u8]
    requires { IsOk (key_node_at node.now) }
    ensures { result.now ≡ slice_range node.now 76 (76 + u16_in node.now 72) }
{
    let end = 76 + usize::from(u16_at(node, 72));
    &node[76..end]
}

/// Whether the name of the key node in a payload has one byte a unit.
pub(crate) fn is_narrow(node: &[u8]) -> bool
    requires { IsOk (key_node_at node.now) }
    ensures { result ≡ is_narrow_key (u16_in node.now 2) }
{
    u16_at(node, 2) / 0x20 % 2 == 1
}

/// The order of the name of the key node in a payload and another name.
fn compare_node(node: &[u8], name: &[u16]) -> Ordering
    requires { IsOk (key_node_at node.now) }
    ensures { result ≡ folded_order (name_of node.now) name.now }
{
    compare_stored(is_narrow(node), stored_bytes(node), name)
}

/// The order of the name of the key node at an offset and another name.
pub(crate) fn compare_name(cells: &Source, at: u32, name: &[u16]) -> Ordering
    requires { IsNode (cells_of cells.now) at }
    ensures { result ≡ folded_order (name_in (cells_of cells.now) at) name.now }
{
    compare_node(payload(cells, at), name)
}

/// The name of the key node at an offset.
pub(crate) fn name(alloc: Global, cells: &Source, at: u32) -> Result<Units, AllocError>
    requires { IsNode (cells_of cells.now) at }
    ensures { IfOk result (λ u. u ≡ name_in (cells_of cells.now) at) }
{
    read_name(alloc, payload(cells, at))
}

/// The name of the key node in a payload.
fn read_name(alloc: Global, node: &[u8]) -> Result<Units, AllocError>
    requires { IsOk (key_node_at node.now) }
    ensures { IfOk result (λ u. u ≡ name_of node.now) }
{
    read_stored(alloc, is_narrow(node), stored_bytes(node))
}

fn read_stored(alloc: Global, is_narrow: bool, stored: &[u8]) -> Result<Units, AllocError>
    ensures { IfOk result (λ u. u ≡ stored_name is_narrow stored.now) }
{
    if is_narrow {
        narrow(alloc, stored)
    } else {
        wide(alloc, stored)
    }
}
