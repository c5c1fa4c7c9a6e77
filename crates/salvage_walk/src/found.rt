//! Children of a key whose nodes are at given places.

ghost use Rattle.std.specs.Prelude.{◌≡◌, IfOk, OnOk};
ghost use Rattle.salvage_bins.specs.Ground.{ground_of};
ghost use Rattle.salvage_walk.specs.Found.{found_next, found_notes, unsaid};
ghost use Rattle.salvage_walk.specs.Incomplete.{notes_key};
ghost use Rattle.salvage_walk.specs.Keys.{judged_key, key_names};
ghost use Rattle.salvage_walk.specs.Remembered.{Remembers};
ghost use Rattle.salvage_walk.specs.Walked.{state_of};

use crate::keys::{add, key_of, path_below};
use crate::lines::{Incomplete, Walk};
use crate::lists::Lists;
use crate::names::NameSet;
use crate::parts::use_node;
use nt_bytes::{ReadStop, Row, Units};
use reg_tree::{Key, Keys};
use salvage_bins::DamagedCells;
use std::alloc::{AllocError, Global};

// A child with all below it, where that many levels are left. Of one that is left out nothing is said.
#[tactic(auto, using(crate::proofs::WalkLemmas::key_steps))]
fn found_key(
    alloc: Global,
    cells: &DamagedCells<'_>,
    walk: &mut Walk,
    lists: &mut Lists,
    notes: &mut Row<Incomplete>,
    above: &[u8],
    path: &[Units],
    taken: &NameSet,
    left: u32,
    at: u32,
) -> Result<Option<Key>, AllocError>
    requires { Remembers (ground_of cells.now) (state_of walk.old).claims lists.old }
    ensures walked { IfOk result (λ k. (k, state_of walk.new)
        ≡ unsaid (state_of walk.old) (judged_key left (ground_of cells.now) above.now path.now taken.now 0 at (state_of walk.old))) }
    ensures noted { OnOk result (notes.new
        ≡ notes_key left (ground_of cells.now) above.now path.now taken.now 0 at (state_of walk.old) notes.old) }
    ensures listed { OnOk result (Remembers (ground_of cells.now) (state_of walk.new).claims lists.new) }
{
    if left == 0 {
        return Ok(None);
    }
    match use_node(alloc, cells, &mut walk.used, false, taken, at) {
        Ok(node) => {
            let below = path_below(alloc, path, node.name.as_slice())?;
            let found = key_of(
                alloc,
                cells,
                walk,
                lists,
                notes,
                above,
                below.as_slice(),
                left - 1,
                node,
                at,
            )?;
            Ok(Some(found))
        }
        Err(ReadStop::Memory) => Err(AllocError),
        Err(ReadStop::Fault(_)) => Ok(None),
    }
}

// The names of these keys.
fn names_of(alloc: Global, keys: &[Key]) -> Result<NameSet, AllocError>
    ensures { IfOk result (λ s. s ≡ key_names keys.now) }
{
    let mut taken = NameSet::new(alloc);
    for key in keys {
        let name = key.name.copy(alloc)?;
        taken.add(alloc, name)?;
    }
    Ok(taken)
}

/// These children of a key at a path and, judged in turn, those whose nodes are at these places, where that many levels are left, beside
/// lists of segments that are remembered. Of one that is left out nothing is said.
pub fn add_found(
    alloc: Global,
    cells: &DamagedCells<'_>,
    walk: &mut Walk,
    lists: &mut Lists,
    notes: &mut Row<Incomplete>,
    above: &[u8],
    path: &[Units],
    left: u32,
    places: &[u32],
    children: Keys,
) -> Result<Keys, AllocError>
    requires { Remembers (ground_of cells.now) (state_of walk.old).claims lists.old }
    ensures walked { IfOk result (λ ks. (ks, state_of walk.new)
        ≡ found_next (judged_key left (ground_of cells.now)) above.now path.now places.now children (state_of walk.old)) }
    ensures noted { OnOk result (notes.new
        ≡ found_notes (judged_key left (ground_of cells.now)) (notes_key left (ground_of cells.now)) above.now path.now places.now children
        (state_of walk.old) notes.old) }
    ensures listed { OnOk result (Remembers (ground_of cells.now) (state_of walk.new).claims lists.new) }
{
    let mut taken = names_of(alloc, children.as_slice())?;
    let mut children = children;
    let mut rest = places;
    'places: loop {
        let [at, more @ ..] = rest else {
            return Ok(children);
        };
        let child = found_key(
            alloc, cells, walk, lists, notes, above, path, &taken, left, *at,
        )?;
        add(alloc, &mut taken, &mut children, child)?;
        rest = more;
    }
}
