//! Keys judged with all below them, where no tree of them is wanted.

ghost use Rattle.std.specs.Prelude.{◌≡◌, ◌+◌, ◌-◌, ℕ, false, List, [], Ok, length, sum_by};
ghost use Rattle.hive_model.specs.KeyNode.{key_node_at};
ghost use Rattle.hive_model.specs.Bins.{look_up};
ghost use Rattle.hive_model.specs.Size.{list_size, size};
ghost use Rattle.hive_model.specs.Tree.{head, trees};
ghost use Rattle.hive_model.specs.Walk.{reading, children_checks, keys_in_turn, below_node, key_checks};
ghost use Rattle.hive_model.specs.Stands.{Stands, AllStand};
ghost use Rattle.cell_forms.specs.Views.{name_of, node_seen};
ghost use Rattle.hive_read.specs.Judged.{AddsName, Counts, Describes, Judges};
ghost use Rattle.hive_cells.specs.Sources.{cells_of};
ghost use Rattle.hive_read.specs.Taken.{Knows};
ghost use Rattle.hive_read.specs.Walked.{walk, Steps, KeyRead, ChildrenRead};

use crate::key::are_bytes;
use crate::list::read_entries;
use crate::sizes::stored_size;
use crate::taken::Taken;
use crate::used::Used;
use crate::uses::{stop, take_name, use_node};
use crate::weighing::{Descriptor, descriptor_size, judge_class, judge_security, judge_values};
use cell_forms::NkSlice;
use hive_cells::{CellHeap, Source};
use nt_bytes::{HiveFaultKind, HiveVersion, ReadStop};
use reg_tree::sizes::list_size;
use std::alloc::Global;

// The cells of a key and of all below it, under a key with this descriptor.
#[cycle(judged)]
fn judge_key<'a>(
    alloc: Global,
    cells: &Source<'a>,
    used: &mut Used,
    taken: &mut Taken<'a>,
    shared: &Descriptor,
    left: u32,
    root: bool,
    at: u32,
) -> Result<u64, ReadStop>
    requires { Describes (cells_of cells.now) shared.now }
    ensures { (names : List (List ℕ)) → Knows taken.old names →
        Steps (Counts (λ t. KeyRead (cells_of cells.now) root at t × AddsName taken.old taken.new (head t).name) (size cells.now.version shared.now.bytes.now))
        (walk (cells_of cells.now) used.old (key_checks left (cells_of cells.now) root names at)) used.new result }
{
    if left == 0 {
        return Err(stop(HiveFaultKind::TooDeep, at));
    }
    let node = use_node(cells, used, root, at)?;
    take_name(alloc, taken, node.name, at)?;
    judge_below(alloc, cells, used, shared, left - 1, &node, at)
}

// The cells of the key of a node, and of all that the node names.
#[cycle(judged)]
fn judge_below(
    alloc: Global,
    cells: &Source,
    used: &mut Used,
    shared: &Descriptor,
    left: u32,
    node: &NkSlice,
    at: u32,
) -> Result<u64, ReadStop>
    requires { Describes (cells_of cells.now) shared.now }
    ensures { Steps (Counts (λ t. (reading key_node_at (cells_of cells.now) at ≡ Ok (node_seen node.now) → Stands (cells_of cells.now) at t)
        × ((head t).name ≡ name_of node.now.name))
        (size cells.now.version shared.now.bytes.now))
        (walk (cells_of cells.now) used.old
        (below_node (key_checks left (cells_of cells.now) false) (cells_of cells.now) (node_seen node.now) at)) used.new result }
{
    let class = judge_class(cells, used, node)?;
    let security = judge_security(cells, used, node)?;
    let described = Descriptor {
        at: node.security,
        bytes: security,
    };
    let values = judge_values(alloc, cells, used, node)?;
    let children = judge_children(alloc, cells, used, &described, left, node, at)?;
    let own = stored_size(76, node.name);
    let descriptor = descriptor_size(shared, &described);
    Ok(
        own.saturating_add(class)
            .saturating_add(descriptor)
            .saturating_add(values)
            .saturating_add(children),
    )
}

// The cells of a node's children, of all below them and of their lists, under a key with this descriptor.
#[cycle(judged)]
fn judge_children(
    alloc: Global,
    cells: &Source,
    used: &mut Used,
    shared: &Descriptor,
    left: u32,
    node: &NkSlice,
    at: u32,
) -> Result<u64, ReadStop>
    requires { Describes (cells_of cells.now) shared.now }
    ensures { Steps (Counts (ChildrenRead (cells_of cells.now) (node_seen node.now))
        (λ ts. list_size (length ts) + sum_by (size cells.now.version shared.now.bytes.now) ts))
        (walk (cells_of cells.now) used.old
        (children_checks (key_checks left (cells_of cells.now) false) (cells_of cells.now) (node_seen node.now) at))
        used.new result }
{
    if node.child_count == 0 {
        return Ok(0);
    }
    let offsets = read_entries(alloc, cells, used, node.child_list)?;
    let found = offsets.as_slice();
    if found.len() != node.child_count as usize {
        return Err(stop(HiveFaultKind::Count, at));
    }
    let children = judge_in_turn(alloc, cells, used, shared, left, found)?;
    let lists = list_size(found.len() as u64);
    Ok(lists.saturating_add(children))
}

// The cells of the keys at these offsets, in sequence.
#[cycle(judged)]
fn judge_in_turn(
    alloc: Global,
    cells: &Source,
    used: &mut Used,
    shared: &Descriptor,
    left: u32,
    offsets: &[u32],
) -> Result<u64, ReadStop>
    requires { Describes (cells_of cells.now) shared.now }
    ensures { Steps (Counts (λ ts. AllStand (cells_of cells.now) offsets.now (trees ts)) (sum_by (size cells.now.version shared.now.bytes.now)))
        (walk (cells_of cells.now) used.old (keys_in_turn (key_checks left (cells_of cells.now) false) (cells_of cells.now) [] offsets.now)) used.new result }
{
    let mut taken = Taken::new(alloc);
    let mut total: u64 = 0;
    let mut rest = offsets;
    'children: loop {
        let [at, more @ ..] = rest else {
            return Ok(total);
        };
        let child = judge_key(alloc, cells, used, &mut taken, shared, left, false, *at)?;
        total = total.saturating_add(child);
        rest = more;
    }
}

/// The bulk in this version of the tree that is at a root, or the first fault: what `read_tree` and
/// `Key::bulk` answer, but no tree is made, so that it takes memory for its checks alone.
pub fn judge(
    alloc: Global,
    cells: &CellHeap,
    root: u32,
    version: HiveVersion,
) -> Result<u64, ReadStop>
    ensures exact { Judges (look_up version cells.now) root result }
{
    are_bytes(cells.bytes());
    let source = Source {
        heap: cells,
        version,
    };
    let mut used = Used::new(alloc);
    let mut taken = Taken::new(alloc);
    let none = Descriptor {
        at: 0xffff_ffff,
        bytes: &[],
    };
    let tree = judge_key(
        alloc, &source, &mut used, &mut taken, &none, 512, true, root,
    )?;
    Ok(tree.saturating_add(32))
}
