//! The walk from the root.

ghost use Rattle.std.specs.Prelude.{◌≡◌, ◌≤◌, [], length, IfOk, OnOk};
ghost use Rattle.hive_model.specs.KeyNode.{key_node_at};
ghost use Rattle.hive_model.specs.Walk.{reading};
ghost use Rattle.cell_forms.specs.Views.{key_node_of};
ghost use Rattle.salvage_bins.specs.Ground.{ground_of};
ghost use Rattle.salvage_walk.specs.Remembered.{Remembers};
ghost use Rattle.salvage_walk.specs.Walked.{state_of};
ghost use Rattle.salvage_walk.specs.Incomplete.{incomplete, notes_at, notes_below, notes_from, notes_key, notes_other};
ghost use Rattle.salvage_walk.specs.Keys.{found_key, has_root_flag, judged_key, key_below, least_root, answer_of, other_at, other_root, salvaged, walked_from};

use crate::claims::Used;
use crate::keys::key_of;
use crate::lines::{Incomplete, Walk, WalkLine};
use crate::lists::Lists;
use crate::names::NameSet;
use crate::parts::use_node;
use cell_forms::{NkForm, read_nk};
use nt_bytes::{ReadStop, Row};
use reg_tree::Key;
use salvage_bins::DamagedCells;
use std::alloc::{AllocError, Global};

/// What is salvaged of a tree, and the lines of the walk, in order.
#[derive(Drop)]
pub struct Salvaged {
    pub tree: Option<Key>,
    pub lines: Vec<WalkLine>,
}

// Does an allocated cell with the form of a root begin at this offset?
fn has_root_form(alloc: Global, cells: &DamagedCells<'_>, at: u32) -> Result<bool, AllocError>
    ensures { IfOk result (λ b. b ≡ has_root_flag (reading key_node_at (ground_of cells.now).cells at)) }
{
    let Ok(payload) = cells.payload(at) else {
        return Ok(false);
    };
    match read_nk(alloc, payload, at) {
        Ok(node) => Ok(node.flags / 4 % 2 == 1),
        Err(ReadStop::Memory) => Err(AllocError),
        Err(ReadStop::Fault(_)) => Ok(false),
    }
}

// The first place where such a cell begins.
fn least(alloc: Global, cells: &DamagedCells<'_>) -> Result<Option<u32>, AllocError>
    requires { length cells.now.bytes.now ≤ 268435456 }
    ensures { IfOk result (λ o. o ≡ least_root (ground_of cells.now) (ground_of cells.now).slots 0) }
{
    let mut at = 0;
    let mut left = cells.bytes.len() / 8;
    'places: while left > 0 {
        if has_root_form(alloc, cells, at)? {
            return Ok(Some(at));
        }
        at += 8;
        left -= 1;
    }
    Ok(None)
}

// The root of a node, with all below it.
fn below(
    alloc: Global,
    cells: &DamagedCells<'_>,
    walk: &mut Walk,
    lists: &mut Lists,
    notes: &mut Row<Incomplete>,
    node: NkForm,
    at: u32,
) -> Result<Option<Key>, AllocError>
    requires { Remembers (ground_of cells.now) (state_of walk.old).claims lists.old }
    ensures walked { IfOk result (λ k. (k, state_of walk.new)
        ≡ found_key (key_below (judged_key 511 (ground_of cells.now)) (ground_of cells.now) [] [] (key_node_of node) at (state_of walk.old))) }
    ensures noted { OnOk result (notes.new
        ≡ notes_below (judged_key 511 (ground_of cells.now)) (notes_key 511 (ground_of cells.now)) (ground_of cells.now) [] []
        (key_node_of node) at (state_of walk.old) notes.old) }
    ensures listed { OnOk result (Remembers (ground_of cells.now) (state_of walk.new).claims lists.new) }
{
    let key = key_of(alloc, cells, walk, lists, notes, &[], &[], 511, node, at)?;
    Ok(Some(key))
}

// The root at an offset where there is one.
fn from_place(
    alloc: Global,
    cells: &DamagedCells<'_>,
    walk: &mut Walk,
    lists: &mut Lists,
    notes: &mut Row<Incomplete>,
    at: u32,
) -> Result<Option<Key>, AllocError>
    requires { Remembers (ground_of cells.now) (state_of walk.old).claims lists.old }
    ensures walked { IfOk result (λ k. (k, state_of walk.new) ≡ other_at (ground_of cells.now) at (state_of walk.old)) }
    ensures noted { OnOk result (notes.new ≡ notes_at (ground_of cells.now) at (state_of walk.old) notes.old) }
    ensures listed { OnOk result (Remembers (ground_of cells.now) (state_of walk.new).claims lists.new) }
{
    let none = NameSet::new(alloc);
    match use_node(alloc, cells, &mut walk.used, true, &none, at) {
        Ok(node) => {
            walk.say(WalkLine::RootAt(at))?;
            below(alloc, cells, walk, lists, notes, node, at)
        }
        Err(ReadStop::Memory) => Err(AllocError),
        Err(ReadStop::Fault(_)) => {
            walk.say(WalkLine::NoRoot)?;
            Ok(None)
        }
    }
}

// Another root than the one that is named.
fn other(
    alloc: Global,
    cells: &DamagedCells<'_>,
    walk: &mut Walk,
    lists: &mut Lists,
    notes: &mut Row<Incomplete>,
) -> Result<Option<Key>, AllocError>
    requires small { length cells.now.bytes.now ≤ 268435456 }
    requires remembered { Remembers (ground_of cells.now) (state_of walk.old).claims lists.old }
    ensures walked { IfOk result (λ k. (k, state_of walk.new)
        ≡ other_root (ground_of cells.now) (state_of walk.old) (least_root (ground_of cells.now) (ground_of cells.now).slots 0)) }
    ensures noted { OnOk result (notes.new
        ≡ notes_other (ground_of cells.now) (state_of walk.old) notes.old (least_root (ground_of cells.now) (ground_of cells.now).slots 0)) }
    ensures listed { OnOk result (Remembers (ground_of cells.now) (state_of walk.new).claims lists.new) }
{
    match least(alloc, cells)? {
        Some(at) => from_place(alloc, cells, walk, lists, notes, at),
        None => {
            walk.say(WalkLine::NoRoot)?;
            Ok(None)
        }
    }
}

// The tree at this root, or at another.
fn from_root(
    alloc: Global,
    cells: &DamagedCells<'_>,
    walk: &mut Walk,
    lists: &mut Lists,
    notes: &mut Row<Incomplete>,
    root: u32,
) -> Result<Option<Key>, AllocError>
    requires small { length cells.now.bytes.now ≤ 268435456 }
    requires remembered { Remembers (ground_of cells.now) (state_of walk.old).claims lists.old }
    ensures walked { IfOk result (λ k. (k, state_of walk.new) ≡ walked_from (ground_of cells.now) root (state_of walk.old)) }
    ensures noted { OnOk result (notes.new ≡ notes_from (ground_of cells.now) root (state_of walk.old) notes.old) }
    ensures listed { OnOk result (Remembers (ground_of cells.now) (state_of walk.new).claims lists.new) }
{
    let none = NameSet::new(alloc);
    match use_node(alloc, cells, &mut walk.used, true, &none, root) {
        Ok(node) => below(alloc, cells, walk, lists, notes, node, root),
        Err(ReadStop::Memory) => Err(AllocError),
        Err(ReadStop::Fault(fault)) => {
            walk.say(WalkLine::Root(fault))?;
            other(alloc, cells, walk, lists, notes)
        }
    }
}

/// A tree that is salvaged, what the walk used and said, and the keys of which children may be missing, in the order in which that was
/// said first.
#[derive(Drop)]
pub struct WalkedTree {
    pub tree: Option<Key>,
    pub walk: Walk,
    pub notes: Row<Incomplete>,
}

/// The tree that is salvaged from a root, so that the walk can go on. There is an answer for any cells; the bytes are at most 256 MiB.
#[tactic(auto, unfolding(crate::specs::Keys::salvaged, crate::specs::Incomplete::incomplete))]
pub fn walk_tree(
    alloc: Global,
    cells: &DamagedCells<'_>,
    root: u32,
) -> Result<WalkedTree, AllocError>
    requires { length cells.now.bytes.now ≤ 268435456 }
    ensures walked { IfOk result (λ t. (t.tree, state_of t.walk) ≡ salvaged (ground_of cells.now) root) }
    ensures noted { IfOk result (λ t. t.notes ≡ incomplete (ground_of cells.now) root) }
{
    let mut walk = Walk {
        used: Used::new(alloc),
        lines: Vec::new(alloc),
    };
    let mut notes = Row::new(alloc);
    let mut lists = Lists::new(alloc, &walk);
    let tree = from_root(alloc, cells, &mut walk, &mut lists, &mut notes, root)?;
    Ok(WalkedTree { tree, walk, notes })
}

/// The tree that is salvaged from a root, and what is printed on the way. There is an answer for any cells; the bytes are at most
/// 256 MiB.
pub fn salvage_tree(
    alloc: Global,
    cells: &DamagedCells<'_>,
    root: u32,
) -> Result<Salvaged, AllocError>
    requires { length cells.now.bytes.now ≤ 268435456 }
    ensures { IfOk result (λ s. (s.tree, s.lines.items) ≡ answer_of (salvaged (ground_of cells.now) root)) }
{
    let walked = walk_tree(alloc, cells, root)?;
    Ok(Salvaged {
        tree: walked.tree,
        lines: walked.walk.lines,
    })
}
