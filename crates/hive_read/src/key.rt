//! Keys, with all below them.

ghost use Rattle.std.specs.Prelude.{◌≡◌, ◌-◌, ◌<◌, ◌||◌, ℕ, false, List, [], Ok, IfOk, slice_index};
ghost use Rattle.nt_bytes.specs.Folding.{folds_same};
ghost use Rattle.hive_model.specs.KeyNode.{key_node_at};
ghost use Rattle.hive_model.specs.Bins.{look_up};
ghost use Rattle.hive_cells.specs.Sources.{cells_of};
ghost use Rattle.hive_model.specs.Tree.{head, trees};
ghost use Rattle.hive_model.specs.Valid.{IsValid};
ghost use Rattle.hive_model.specs.Walk.{reading, class_checks, security_checks, children_checks, keys_in_turn, below_node, key_checks};
ghost use Rattle.hive_model.specs.Stands.{class_of, security_of, tree_flags, Stands, AllStand};
ghost use Rattle.cell_forms.specs.Views.{name_of, node_seen};
ghost use Rattle.hive_read.specs.Taken.{has_name, Knows};
ghost use Rattle.hive_read.specs.Walked.{walk, Steps, Reads, KeyRead, ChildrenRead};

use crate::list::read_entries;
use crate::taken::Taken;
use crate::used::Used;
use crate::uses::{stop, take_name, use_bytes, use_node, use_security};
use crate::value::read_values;
use cell_forms::NkSlice;
use hive_cells::{CellHeap, Source};
use nt_bytes::{Bytes, HiveFaultKind, HiveVersion, ReadStop};
use reg_tree::{Key, Keys};
use std::alloc::Global;

#[tactic(auto, unfolding(hive_model::specs::Walk::class_checks, hive_model::specs::Stands::class_of))]
fn read_class(
    alloc: Global,
    cells: &Source,
    used: &mut Used,
    node: &NkSlice,
) -> Result<Bytes, ReadStop>
    ensures { Steps (λ b. class_of (cells_of cells.now) (node_seen node.now) ≡ Ok b)
        (walk (cells_of cells.now) used.old (class_checks (cells_of cells.now) (node_seen node.now))) used.new result }
{
    if node.class_length == 0 {
        return Ok(Bytes::new(alloc));
    }
    use_bytes(alloc, cells, used, u32::from(node.class_length), node.class)
}

#[tactic(auto, unfolding(hive_model::specs::Walk::security_checks, hive_model::specs::Stands::security_of))]
fn read_descriptor(
    alloc: Global,
    cells: &Source,
    used: &mut Used,
    node: &NkSlice,
) -> Result<Bytes, ReadStop>
    ensures { Steps (λ b. security_of (cells_of cells.now) (node_seen node.now) ≡ Ok b)
        (walk (cells_of cells.now) used.old (security_checks (cells_of cells.now) (node_seen node.now))) used.new result }
{
    if node.security == 0xffff_ffff {
        return Ok(Bytes::new(alloc));
    }
    let security = use_security(alloc, cells, used, node.security)?;
    Ok(security.descriptor)
}

// The flags without the bit that says how the name is stored.
fn own_flags(flags: u16) -> u16
    ensures { result ≡ tree_flags flags }
{
    if flags / 32 % 2 == 1 {
        flags - 32
    } else {
        flags
    }
}

#[cycle(walk)]
fn read_key<'a>(
    alloc: Global,
    cells: &Source<'a>,
    used: &mut Used,
    taken: &mut Taken<'a>,
    left: u32,
    root: bool,
    at: u32,
) -> Result<Key, ReadStop>
    ensures walked { (names : List (List ℕ)) → Knows taken.old names →
        Steps (KeyRead (cells_of cells.now) root at)
        (walk (cells_of cells.now) used.old (key_checks left (cells_of cells.now) root names at)) used.new result }
    ensures known { IfOk result (λ t. (n : List ℕ) → has_name taken.new n ≡ (has_name taken.old n || folds_same n (head t).name)) }
{
    if left == 0 {
        return Err(stop(HiveFaultKind::TooDeep, at));
    }
    let node = use_node(cells, used, root, at)?;
    take_name(alloc, taken, node.name, at)?;
    read_below(alloc, cells, used, left - 1, &node, at)
}

// The key of a node, with all that the node names.
#[cycle(walk)]
fn read_below(
    alloc: Global,
    cells: &Source,
    used: &mut Used,
    left: u32,
    node: &NkSlice,
    at: u32,
) -> Result<Key, ReadStop>
    ensures walked { Steps (λ t. reading key_node_at (cells_of cells.now) at ≡ Ok (node_seen node.now) → Stands (cells_of cells.now) at t)
        (walk (cells_of cells.now) used.old
        (below_node (key_checks left (cells_of cells.now) false) (cells_of cells.now) (node_seen node.now) at)) used.new result }
    ensures named { IfOk result (λ t. (head t).name ≡ name_of node.now.name) }
{
    let class = read_class(alloc, cells, used, node)?;
    let security = read_descriptor(alloc, cells, used, node)?;
    let values = read_values(alloc, cells, used, node)?;
    let children = read_children(alloc, cells, used, left, node, at)?;
    let name = node.name.units(alloc)?;
    let flags = own_flags(node.flags);
    Ok(Key {
        name,
        flags,
        stamp: node.stamp,
        class,
        security,
        values,
        children,
    })
}

#[cycle(walk)]
fn read_children(
    alloc: Global,
    cells: &Source,
    used: &mut Used,
    left: u32,
    node: &NkSlice,
    at: u32,
) -> Result<Keys, ReadStop>
    ensures { Steps (ChildrenRead (cells_of cells.now) (node_seen node.now))
        (walk (cells_of cells.now) used.old
        (children_checks (key_checks left (cells_of cells.now) false) (cells_of cells.now) (node_seen node.now) at))
        used.new result }
{
    if node.child_count == 0 {
        return Ok(Keys::new(alloc));
    }
    let offsets = read_entries(alloc, cells, used, node.child_list)?;
    let found = offsets.as_slice();
    if found.len() != node.child_count as usize {
        return Err(stop(HiveFaultKind::Count, at));
    }
    read_in_turn(alloc, cells, used, left, found)
}

// The keys at these offsets, in sequence.
#[cycle(walk)]
fn read_in_turn(
    alloc: Global,
    cells: &Source,
    used: &mut Used,
    left: u32,
    offsets: &[u32],
) -> Result<Keys, ReadStop>
    ensures { Steps (λ ts. AllStand (cells_of cells.now) offsets.now (trees ts))
        (walk (cells_of cells.now) used.old (keys_in_turn (key_checks left (cells_of cells.now) false) (cells_of cells.now) [] offsets.now)) used.new result }
{
    let mut taken = Taken::new(alloc);
    let mut children = Keys::new(alloc);
    let mut rest = offsets;
    'children: loop {
        let [at, more @ ..] = rest else {
            return Ok(children);
        };
        let child = read_key(alloc, cells, used, &mut taken, left, false, *at)?;
        children.push(child)?;
        rest = more;
    }
}

/// Each is below 256.
pub(crate) fn are_bytes(bytes: &[u8])
    ensures { (i : ℕ) → slice_index bytes.now i < 256 }
{
    let _whole = bytes;
}

/// The tree that is at a root in a hive of this version, or the first fault. At most 512 levels are
/// taken, `TooDeep` beyond. Each kind of fault comes where its check is the first that fails, with the
/// place that is judged.
pub fn read_tree(
    alloc: Global,
    cells: &CellHeap,
    root: u32,
    version: HiveVersion,
) -> Result<Key, ReadStop>
    ensures exact { Reads (look_up version cells.now) root result }
    ensures valid { IfOk result (λ t. IsValid t) }
{
    are_bytes(cells.bytes());
    let source = Source {
        heap: cells,
        version,
    };
    let mut used = Used::new(alloc);
    let mut taken = Taken::new(alloc);
    read_key(alloc, &source, &mut used, &mut taken, 512, true, root)
}
