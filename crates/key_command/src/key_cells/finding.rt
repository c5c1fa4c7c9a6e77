//! The path that a path means, where the tree is in cells.

ghost use Rattle.std.specs.Prelude.{◌≡◌, ◌∷◌, [], if◌then◌else◌, Some, None, IfOk};
ghost use Rattle.hive_model.specs.Edit.{has_child};
ghost use Rattle.hive_model.specs.Tree.{Tree};
ghost use Rattle.hive_model.specs.Stands.{Stands};
ghost use Rattle.start_model.specs.Sets.{select_numbers_of, set_name, is_usable};
ghost use Rattle.hive_cells.specs.Sources.{cells_of};
ghost use Rattle.key_command.specs.hive_levels.Cut.{Shows};
ghost use Rattle.key_text.specs.Found.{means_current, default_path, true_path};
ghost use Rattle.key_command.specs.key_cells.Ways.{path_through};

use crate::hive_levels::read_along;
use hive_cells::Source;
use nt_bytes::{Names, ReadStop, Units, same_folded};
use nt_names::startup_names::CURRENT_CONTROL_SET;
use select_keys::{select_numbers, select_path, set_name};
use std::alloc::{AllocError, Global};

/// A name, and the names after it.
fn path_from(alloc: Global, first: Units, rest: &[Units]) -> Result<Names, AllocError>
    ensures { IfOk result (λ path. path ≡ first ∷ rest.now) }
{
    let mut path = Names::new(alloc);
    path.push(first)?;
    for name in rest {
        path.push(name.copy(alloc)?)?;
    }
    Ok(path)
}

/// The path of one name.
fn path_of(alloc: Global, name: &[u16]) -> Result<Names, AllocError>
    ensures { IfOk result (λ path. path ≡ name.now ∷ []) }
{
    let mut path = Names::new(alloc);
    path.push(Units::from_slice(alloc, name)?)?;
    Ok(path)
}

/// Whether a child of the root has a name.
fn has_child(alloc: Global, cells: &Source, root: u32, name: &[u16]) -> Result<bool, ReadStop>
    ensures { (t : Tree) → Stands (cells_of cells.now) root t → Shows (has_child name.now t) result }
{
    let path = path_of(alloc, name)?;
    let part = read_along(alloc, cells, root, &path, 0)?;
    Ok(part.has_child(name))
}

/// Whether a name stands for the set of the next start.
fn means_current(alloc: Global, cells: &Source, root: u32, name: &[u16]) -> Result<bool, ReadStop>
    ensures { (t : Tree) → Stands (cells_of cells.now) root t → Shows (means_current t name.now) result }
{
    if !same_folded(&CURRENT_CONTROL_SET, name) {
        return Ok(false);
    }
    let there = has_child(alloc, cells, root, &CURRENT_CONTROL_SET)?;
    Ok(!there)
}

/// The number that Default is.
fn default_number(alloc: Global, cells: &Source, root: u32) -> Result<u32, ReadStop>
    ensures { (t : Tree) → Stands (cells_of cells.now) root t → Shows (select_numbers_of t).default result }
{
    let path = select_path(alloc)?;
    let part = read_along(alloc, cells, root, &path, 1)?;
    Ok(select_numbers(&part).default)
}

/// The name of the set of a number, if the number names one.
fn set_named(
    alloc: Global,
    cells: &Source,
    root: u32,
    number: u32,
) -> Result<Option<Units>, ReadStop>
    ensures { (t : Tree) → Stands (cells_of cells.now) root t → Shows (if is_usable t number then Some (set_name number) else None) result }
{
    if number < 1 || 999 < number {
        return Ok(None);
    }
    let name = set_name(alloc, number)?;
    let there = has_child(alloc, cells, root, name.as_slice())?;
    if !there {
        return Ok(None);
    }
    Ok(Some(name))
}

/// A path from a set, if there is one.
fn path_through(
    alloc: Global,
    set: Option<Units>,
    rest: &[Units],
) -> Result<Option<Names>, AllocError>
    ensures { IfOk result (λ path. path ≡ path_through set rest.now) }
{
    match set {
        Some(name) => Ok(Some(path_from(alloc, name, rest)?)),
        None => Ok(None),
    }
}

/// The path through the set that Default names, if it names one.
fn default_path(
    alloc: Global,
    cells: &Source,
    root: u32,
    rest: &[Units],
) -> Result<Option<Names>, ReadStop>
    ensures { (t : Tree) → Stands (cells_of cells.now) root t → Shows (default_path t rest.now) result }
{
    let number = default_number(alloc, cells, root)?;
    let set = set_named(alloc, cells, root, number)?;
    let path = path_through(alloc, set, rest)?;
    Ok(path)
}

/// The path with the true set in place of `CurrentControlSet`; none where there is no such set.
#[tactic(auto, unfolding(key_text::specs::Found::true_path))]
pub(crate) fn true_path(
    alloc: Global,
    cells: &Source,
    root: u32,
    path: &Names,
) -> Result<Option<Names>, ReadStop>
    ensures { (t : Tree) → Stands (cells_of cells.now) root t → Shows (true_path t path.now) result }
{
    let [first, rest @ ..] = path.as_slice() else {
        return Ok(Some(Names::new(alloc)));
    };
    let current = means_current(alloc, cells, root, first.as_slice())?;
    if current {
        return default_path(alloc, cells, root, rest);
    }
    let same = path.copy(alloc)?;
    Ok(Some(same))
}
