//! The keys that a path leads along.

ghost use Rattle.hive_model.specs.Tree.{Tree};
ghost use Rattle.hive_model.specs.Stands.{Stands};
ghost use Rattle.hive_cells.specs.Sources.{cells_of};
ghost use Rattle.key_command.specs.hive_levels.Cut.{along, Shows};
ghost use Rattle.key_command.specs.hive_levels.Reading.{Answers, along_at, place_at};

use crate::hive_levels::cells::node_at;
use crate::hive_levels::cut::read_cut;
use crate::hive_levels::lists::children_of;
use crate::hive_levels::names::first_named;
use crate::hive_levels::node::bare_key;
use hive_cells::Source;
use nt_bytes::{Names, ReadStop, Units};
use reg_tree::{Key, Keys};
use std::alloc::Global;

/// Along these names, from the key at an offset.
#[cycle(along)]
fn read_path(
    alloc: Global,
    cells: &Source,
    path: &[Units],
    levels: u64,
    at: u32,
) -> Result<Key, ReadStop>
    ensures { Answers (λ k. k) (along_at path.now levels (cells_of cells.now) at) result }
{
    let [name, more @ ..] = path else {
        return read_cut(alloc, cells, levels, at);
    };
    let node = node_at(cells, at)?;
    let offsets = children_of(alloc, cells, &node)?;
    let place = first_named(cells, name.as_slice(), offsets.as_slice())?;
    let below = read_place(alloc, cells, more, levels, place)?;
    let key = bare_key(alloc, &node, below)?;
    Ok(key)
}

/// The one key at an offset, along these names; none where there is no offset.
#[cycle(along)]
fn read_place(
    alloc: Global,
    cells: &Source,
    path: &[Units],
    levels: u64,
    place: Option<u32>,
) -> Result<Keys, ReadStop>
    ensures { Answers (λ ks. ks) (place_at (along_at path.now levels (cells_of cells.now)) place) result }
{
    let mut keys = Keys::new(alloc);
    if let Some(at) = place {
        let key = read_path(alloc, cells, path, levels, at)?;
        keys.push(key)?;
    }
    Ok(keys)
}

/// The keys that a path from the key at an offset leads along, by their names alone, and that many levels of the key at its
/// end, with the names of the keys after them. Where the path leads to no key, the keys are those as far as there are any.
/// Out of memory alone is free where a tree stands at the offset.
pub fn read_along(
    alloc: Global,
    cells: &Source,
    root: u32,
    path: &Names,
    levels: u64,
) -> Result<Key, ReadStop>
    ensures { (t : Tree) → Stands (cells_of cells.now) root t → Shows (along path.now levels t) result }
{
    read_path(alloc, cells, path.as_slice(), levels, root)
}
