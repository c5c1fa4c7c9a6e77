//! Keys, with all below them.

ghost use Rattle.std.specs.Prelude.{◌≡◌, ◌-◌, ◌&&◌, ◌||◌, [], ◌∷◌, ◌++◌, not, is_some, OnOk, IfOk};
ghost use Rattle.salvage_walk.specs.Incomplete.{incomplete_at, noted, notes_below, notes_key, notes_next};
ghost use Rattle.hive_model.specs.KeyNode.{key_node_at};
ghost use Rattle.hive_model.specs.Stands.{tree_flags};
ghost use Rattle.hive_model.specs.Walk.{reading};
ghost use Rattle.cell_forms.specs.Views.{key_node_of};
ghost use Rattle.salvage_bins.specs.Ground.{ground_of};
ghost use Rattle.salvage_walk.specs.Remembered.{Remembers};
ghost use Rattle.salvage_walk.specs.Walked.{say, state_of, Walked};
ghost use Rattle.salvage_walk.specs.Keys.{judged_key, key_below, key_line, key_names, keys_next, with_child};

use crate::entries::entries;
use crate::lines::{Incomplete, Walk, WalkLine};
use crate::lists::Lists;
use crate::names::NameSet;
use crate::parts::use_node;
use crate::steps::{class, security, values};
use cell_forms::{NkForm, read_nk};
use nt_bytes::{HiveFault, HiveFaultKind, Names, ReadStop, Row, Units};
use reg_tree::{Key, Keys};
use salvage_bins::DamagedCells;
use std::alloc::{AllocError, Global};

/// The path of a child of this name.
pub(crate) fn path_below(alloc: Global, path: &[Units], name: &[u16]) -> Result<Names, AllocError>
    ensures { IfOk result (λ p. p ≡ path.now ++ name.now ∷ []) }
{
    let mut below = Names::from_slice(alloc, path)?;
    let name = Units::from_slice(alloc, name)?;
    below.push(name)?;
    Ok(below)
}

// The line of a child with this fault, whose cell is at an offset.
fn line_of(
    alloc: Global,
    cells: &DamagedCells<'_>,
    path: &[Units],
    number: usize,
    at: u32,
    fault: HiveFault,
) -> Result<WalkLine, AllocError>
    ensures { IfOk result (λ l. l ≡ key_line path.now number fault (reading key_node_at (ground_of cells.now).cells at)) }
{
    let Ok(payload) = cells.payload(at) else {
        let path = Names::from_slice(alloc, path)?;
        return Ok(WalkLine::KeyAt(fault, number, path));
    };
    match read_nk(alloc, payload, at) {
        Ok(node) => {
            let path = path_below(alloc, path, node.name.as_slice())?;
            Ok(WalkLine::Key(fault, path))
        }
        Err(ReadStop::Memory) => Err(AllocError),
        Err(ReadStop::Fault(_)) => {
            let path = Names::from_slice(alloc, path)?;
            Ok(WalkLine::KeyAt(fault, number, path))
        }
    }
}

// Says that a child is left out.
fn leave_out(
    alloc: Global,
    cells: &DamagedCells<'_>,
    walk: &mut Walk,
    path: &[Units],
    number: usize,
    at: u32,
    fault: HiveFault,
) -> Result<(), AllocError>
    ensures { OnOk result (state_of walk.new
        ≡ say (state_of walk.old) (key_line path.now number fault (reading key_node_at (ground_of cells.now).cells at))) }
{
    let line = line_of(alloc, cells, path, number, at, fault)?;
    walk.say(line)
}

// The flags without the bit that says how the name is stored.
fn own_flags(flags: u16) -> u16
    ensures { result ≡ tree_flags flags }
{
    if flags / 32 % 2 == 1 {
        flags - 32
    } else {
        flags
    }
}

// Notes the key at an offset and a path, if it is incomplete.
fn note(
    alloc: Global,
    notes: &mut Row<Incomplete>,
    is: bool,
    at: u32,
    path: &[Units],
) -> Result<(), AllocError>
    ensures { OnOk result (notes.new ≡ noted is (incomplete_at at path.now) notes.old) }
{
    if !is {
        return Ok(());
    }
    let path = Names::from_slice(alloc, path)?;
    notes.push(Incomplete { at, path })
}

// Is a key to be noted for this child, which was noted already or not?
fn is_new(noted: bool, child: &Option<Key>) -> bool
    ensures { result ≡ (not noted && not (is_some child.now)) }
{
    !noted && child.is_none()
}

// Is it noted then?
fn is_noted(noted: bool, child: &Option<Key>) -> bool
    ensures { result ≡ (noted || not (is_some child.now)) }
{
    noted || child.is_none()
}

// A child with all below it, where that many levels are left.
#[cycle(walk)]
#[tactic(auto, using(crate::proofs::WalkLemmas::key_steps))]
fn key(
    alloc: Global,
    cells: &DamagedCells<'_>,
    walk: &mut Walk,
    lists: &mut Lists,
    notes: &mut Row<Incomplete>,
    above: &[u8],
    path: &[Units],
    taken: &NameSet,
    left: u32,
    number: usize,
    at: u32,
) -> Result<Option<Key>, AllocError>
    requires { Remembers (ground_of cells.now) (state_of walk.old).claims lists.old }
    ensures walked { IfOk result (λ k. (k, state_of walk.new)
        ≡ judged_key left (ground_of cells.now) above.now path.now taken.now number at (state_of walk.old)) }
    ensures noted { OnOk result (notes.new
        ≡ notes_key left (ground_of cells.now) above.now path.now taken.now number at (state_of walk.old) notes.old) }
    ensures listed { OnOk result (Remembers (ground_of cells.now) (state_of walk.new).claims lists.new) }
{
    if left == 0 {
        let kind = HiveFaultKind::TooDeep;
        leave_out(alloc, cells, walk, path, number, at, HiveFault { kind, at })?;
        return Ok(None);
    }
    match use_node(alloc, cells, &mut walk.used, false, taken, at) {
        Ok(node) => {
            let below = path_below(alloc, path, node.name.as_slice())?;
            let found = key_of(
                alloc,
                cells,
                walk,
                lists,
                notes,
                above,
                below.as_slice(),
                left - 1,
                node,
                at,
            )?;
            Ok(Some(found))
        }
        Err(ReadStop::Memory) => Err(AllocError),
        Err(ReadStop::Fault(fault)) => {
            leave_out(alloc, cells, walk, path, number, at, fault)?;
            Ok(None)
        }
    }
}

/// The key of a node, itself at a path, with all below it, where that many levels are left.
#[cycle(walk)]
#[tactic(auto, unfolding(crate::specs::Keys::key_below, crate::specs::Incomplete::notes_below))]
pub(crate) fn key_of(
    alloc: Global,
    cells: &DamagedCells<'_>,
    walk: &mut Walk,
    lists: &mut Lists,
    notes: &mut Row<Incomplete>,
    above: &[u8],
    path: &[Units],
    left: u32,
    node: NkForm,
    at: u32,
) -> Result<Key, AllocError>
    requires { Remembers (ground_of cells.now) (state_of walk.old).claims lists.old }
    ensures walked { IfOk result (λ k. (k, state_of walk.new)
        ≡ key_below (judged_key left (ground_of cells.now)) (ground_of cells.now) above.now path.now (key_node_of node) at (state_of walk.old)) }
    ensures noted { OnOk result (notes.new
        ≡ notes_below (judged_key left (ground_of cells.now)) (notes_key left (ground_of cells.now)) (ground_of cells.now) above.now path.now
        (key_node_of node) at (state_of walk.old) notes.old) }
    ensures listed { OnOk result (Remembers (ground_of cells.now) (state_of walk.new).claims lists.new) }
{
    let class = class(alloc, cells, walk, path, &node)?;
    let security = security(alloc, cells, walk, above, path, &node)?;
    let values = values(alloc, cells, walk, lists, path, &node)?;
    let before = walk.len();
    let offsets = entries(alloc, cells, walk, path, &node, at)?;
    let told = walk.said_more(before);
    note(alloc, notes, told, at, path)?;
    let children = keys(
        alloc,
        cells,
        walk,
        lists,
        notes,
        security.as_slice(),
        path,
        left,
        at,
        told,
        offsets.as_slice(),
    )?;
    let flags = own_flags(node.flags);
    Ok(Key {
        name: node.name,
        flags,
        stamp: node.stamp,
        class,
        security,
        values,
        children,
    })
}

/// Adds a child, if there is one.
#[tactic(auto, using(crate::proofs::WalkLemmas::pushes))]
pub(crate) fn add(
    alloc: Global,
    taken: &mut NameSet,
    children: &mut Keys,
    child: Option<Key>,
) -> Result<(), AllocError>
    requires { taken.old ≡ key_names children.old }
    ensures added { (w : Walked) → OnOk result ((children.new, w) ≡ with_child children.old (child, w)) }
    ensures known { OnOk result (taken.new ≡ key_names children.new) }
{
    match child {
        None => Ok(()),
        Some(child) => {
            let name = child.name.copy(alloc)?;
            taken.add(alloc, name)?;
            children.push(child)
        }
    }
}

// The children at these offsets of a key at an offset, which perhaps was noted.
#[cycle(walk)]
fn keys(
    alloc: Global,
    cells: &DamagedCells<'_>,
    walk: &mut Walk,
    lists: &mut Lists,
    notes: &mut Row<Incomplete>,
    above: &[u8],
    path: &[Units],
    left: u32,
    own: u32,
    told: bool,
    offsets: &[u32],
) -> Result<Keys, AllocError>
    requires { Remembers (ground_of cells.now) (state_of walk.old).claims lists.old }
    ensures walked { IfOk result (λ ks. (ks, state_of walk.new)
        ≡ keys_next (judged_key left (ground_of cells.now)) above.now path.now 1 offsets.now [] (state_of walk.old)) }
    ensures noted { OnOk result (notes.new
        ≡ notes_next (judged_key left (ground_of cells.now)) (notes_key left (ground_of cells.now)) (incomplete_at own path.now)
        above.now path.now 1 offsets.now [] (state_of walk.old) told notes.old) }
    ensures listed { OnOk result (Remembers (ground_of cells.now) (state_of walk.new).claims lists.new) }
{
    let mut taken = NameSet::new(alloc);
    let mut children = Keys::new(alloc);
    let mut number = 1;
    let mut noted = told;
    let mut rest = offsets;
    'children: loop {
        let [at, more @ ..] = rest else {
            return Ok(children);
        };
        let child = key(
            alloc, cells, walk, lists, notes, above, path, &taken, left, number, *at,
        )?;
        let is = is_new(noted, &child);
        note(alloc, notes, is, own, path)?;
        noted = is_noted(noted, &child);
        add(alloc, &mut taken, &mut children, child)?;
        number += 1;
        rest = more;
    }
}
