//! Lists of children.

ghost use Rattle.std.specs.Prelude.{◌≡◌, OnOk, IfOk};
ghost use Rattle.cell_forms.specs.Views.{key_node_of};
ghost use Rattle.salvage_bins.specs.Ground.{ground_of};
ghost use Rattle.salvage_walk.specs.Walked.{state_of};
ghost use Rattle.salvage_walk.specs.Steps.{counted, entries_below, entries_step, leaf_next, leaves_next, lists_step, more_entries, no_entries};
ghost use Rattle.salvage_walk.specs.FrontSeen.{entries_seen, front_seen};

use crate::fronts::{FrontForm, lists_lists, use_leaf, use_list};
use crate::lines::{KeyPart, Walk, WalkLine};
use crate::steps::{say_part, say_short};
use cell_forms::NkForm;
use nt_bytes::{Names, ReadStop, Units};
use salvage_bins::DamagedCells;
use std::alloc::{AllocError, Global};

/// The offsets that lists name, and whether no list had a fault.
#[derive(Drop)]
pub struct EntriesForm {
    pub offsets: Vec<u32>,
    pub sound: bool,
}

// Adds the entries of a list.
fn append(entries: &mut EntriesForm, list: &FrontForm) -> Result<(), AllocError>
    ensures { OnOk result (entries_seen entries.new ≡ more_entries (entries_seen entries.old) (front_seen list.now)) }
{
    entries.offsets.extend_from_slice(list.offsets.as_slice())?;
    entries.sound = entries.sound && !list.short;
    Ok(())
}

// Adds the entries of the list at an offset, which a list of lists names.
#[tactic(auto, unfolding(crate::specs::Steps::leaf_next))]
fn leaf(
    alloc: Global,
    cells: &DamagedCells<'_>,
    walk: &mut Walk,
    path: &[Units],
    entries: &mut EntriesForm,
    at: u32,
) -> Result<(), AllocError>
    ensures { OnOk result ((entries_seen entries.new, state_of walk.new)
        ≡ leaf_next (ground_of cells.now) path.now at (entries_seen entries.old) (state_of walk.old)) }
{
    match use_leaf(alloc, cells, &mut walk.used, at) {
        Ok(list) => {
            append(entries, &list)?;
            say_short(alloc, walk, list.short, KeyPart::Keys, path, at)
        }
        Err(ReadStop::Memory) => Err(AllocError),
        Err(ReadStop::Fault(fault)) => {
            entries.sound = false;
            say_part(alloc, walk, KeyPart::Keys, path, fault)
        }
    }
}

// The entries of the lists at these offsets.
fn leaves(
    alloc: Global,
    cells: &DamagedCells<'_>,
    walk: &mut Walk,
    path: &[Units],
    lists: &[u32],
    sound: bool,
) -> Result<EntriesForm, AllocError>
    ensures { IfOk result (λ e. (entries_seen e, state_of walk.new)
        ≡ leaves_next (ground_of cells.now) path.now lists.now (no_entries sound) (state_of walk.old)) }
{
    let offsets = Vec::new(alloc);
    let mut entries = EntriesForm { offsets, sound };
    let mut rest = lists;
    'lists: loop {
        let [at, more @ ..] = rest else {
            return Ok(entries);
        };
        leaf(alloc, cells, walk, path, &mut entries, *at)?;
        rest = more;
    }
}

// The entries of a list, or of its lists.
fn entries_of(
    alloc: Global,
    cells: &DamagedCells<'_>,
    walk: &mut Walk,
    path: &[Units],
    list: FrontForm,
) -> Result<EntriesForm, AllocError>
    ensures { IfOk result (λ e. (entries_seen e, state_of walk.new)
        ≡ entries_below (ground_of cells.now) path.now (front_seen list) (state_of walk.old)) }
{
    if lists_lists(list.kind) {
        return leaves(
            alloc,
            cells,
            walk,
            path,
            list.offsets.as_slice(),
            !list.short,
        );
    }
    Ok(EntriesForm {
        offsets: list.offsets.into_vec(),
        sound: !list.short,
    })
}

// The entries of the list at an offset, or of its lists.
#[tactic(auto, unfolding(crate::specs::Steps::lists_step))]
fn lists(
    alloc: Global,
    cells: &DamagedCells<'_>,
    walk: &mut Walk,
    path: &[Units],
    at: u32,
) -> Result<EntriesForm, AllocError>
    ensures { IfOk result (λ e. (entries_seen e, state_of walk.new)
        ≡ lists_step (ground_of cells.now) path.now at (state_of walk.old)) }
{
    match use_list(alloc, cells, &mut walk.used, at) {
        Ok(list) => {
            say_short(alloc, walk, list.short, KeyPart::Keys, path, at)?;
            entries_of(alloc, cells, walk, path, list)
        }
        Err(ReadStop::Memory) => Err(AllocError),
        Err(ReadStop::Fault(fault)) => {
            say_part(alloc, walk, KeyPart::Keys, path, fault)?;
            let offsets = Vec::new(alloc);
            Ok(EntriesForm {
                offsets,
                sound: false,
            })
        }
    }
}

// Says that sound lists name another number of children than the node counts, where they do.
fn count(
    alloc: Global,
    walk: &mut Walk,
    path: &[Units],
    node: &NkForm,
    at: u32,
    entries: EntriesForm,
) -> Result<Vec<u32>, AllocError>
    ensures { IfOk result (λ v. (v.items, state_of walk.new)
        ≡ counted path.now (key_node_of node.now) at (entries_seen entries, state_of walk.old)) }
{
    if entries.sound && entries.offsets.len() != node.child_count as usize {
        let path = Names::from_slice(alloc, path)?;
        walk.say(WalkLine::Nothing(at, path))?;
    }
    Ok(entries.offsets)
}

/// The offsets of a key's children.
#[tactic(auto, unfolding(crate::specs::Steps::entries_step))]
pub(crate) fn entries(
    alloc: Global,
    cells: &DamagedCells<'_>,
    walk: &mut Walk,
    path: &[Units],
    node: &NkForm,
    at: u32,
) -> Result<Vec<u32>, AllocError>
    ensures { IfOk result (λ v. (v.items, state_of walk.new)
        ≡ entries_step (ground_of cells.now) path.now (key_node_of node.now) at (state_of walk.old)) }
{
    if node.child_count == 0 {
        return Ok(Vec::new(alloc));
    }
    let found = lists(alloc, cells, walk, path, node.child_list)?;
    count(alloc, walk, path, node, at, found)
}
