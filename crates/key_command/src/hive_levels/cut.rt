//! The first levels of the key at an offset.

ghost use Rattle.hive_cells.specs.Sources.{cells_of};
ghost use Rattle.cell_forms.specs.Views.{node_seen};
ghost use Rattle.key_command.specs.hive_levels.Reading.{Answers, below_node, cut_at, in_turn};

use crate::hive_levels::cells::node_at;
use crate::hive_levels::lists::children_of;
use crate::hive_levels::node::{bare_key, key_of};
use cell_forms::NkSlice;
use hive_cells::Source;
use nt_bytes::ReadStop;
use reg_tree::{Key, Keys};
use std::alloc::Global;

/// That many levels of the key at an offset, and the names of the keys after them.
#[cycle(cut)]
pub(crate) fn read_cut(alloc: Global, cells: &Source, left: u64, at: u32) -> Result<Key, ReadStop>
    ensures { Answers (λ k. k) (cut_at left (cells_of cells.now) at) result }
{
    let node = node_at(cells, at)?;
    if left == 0 {
        let key = bare_key(alloc, &node, Keys::new(alloc))?;
        return Ok(key);
    }
    read_below(alloc, cells, left - 1, &node)
}

/// The key of a node, and that many levels below it.
#[cycle(cut)]
fn read_below(alloc: Global, cells: &Source, left: u64, node: &NkSlice) -> Result<Key, ReadStop>
    ensures { Answers (λ k. k) (below_node (cut_at left (cells_of cells.now)) (cells_of cells.now) (node_seen node.now)) result }
{
    let offsets = children_of(alloc, cells, node)?;
    let children = read_in_turn(alloc, cells, left, offsets.as_slice())?;
    key_of(alloc, cells, node, children)
}

/// That many levels of each of the keys at these offsets, in order.
#[cycle(cut)]
fn read_in_turn(alloc: Global, cells: &Source, left: u64, offsets: &[u32]) -> Result<Keys, ReadStop>
    ensures { Answers (λ ks. ks) (in_turn (cut_at left (cells_of cells.now)) offsets.now) result }
{
    let mut children = Keys::new(alloc);
    let mut rest = offsets;
    'children: loop {
        let [at, more @ ..] = rest else {
            return Ok(children);
        };
        let child = read_cut(alloc, cells, left, *at)?;
        children.push(child)?;
        rest = more;
    }
}
