//! The report of `key` out of cells.

ghost use Rattle.std.specs.Prelude.{◌≡◌, [], ◌∷◌, Some, IfOk};
ghost use Rattle.hive_model.specs.Tree.{Tree, key, none};
ghost use Rattle.hive_model.specs.Stands.{Stands};
ghost use Rattle.hive_cells.specs.Sources.{cells_of};
ghost use Rattle.key_command.specs.hive_levels.Cut.{bare, Shows};
ghost use Rattle.key_text.specs.Lines.{printed_lines};
ghost use Rattle.key_text.specs.Found.{no_key_lines, path_lines, lines_of};
ghost use Rattle.key_command.specs.key_cells.Ways.{HoldsTree, IsTruePath};

use crate::hive_levels::read_along;
use crate::key_cells::finding::true_path;
use hive_cells::Source;
use key_text::key_report;
use nt_bytes::{Bytes, Names, ReadStop, Units};
use reg_tree::{Key, Keys, Values};
use report_text::line_text::ReportForm;
use std::alloc::{AllocError, Global};

/// A key that has nothing.
fn nothing(alloc: Global) -> Key
    ensures { result ≡ key (bare []) none }
{
    Key {
        name: Units::new(alloc),
        flags: 0,
        stamp: 0,
        class: Bytes::new(alloc),
        security: Bytes::new(alloc),
        values: Values::new(alloc),
        children: Keys::new(alloc),
    }
}

/// The path of one empty name.
fn unnamed(alloc: Global) -> Result<Names, AllocError>
    ensures { IfOk result (λ path. path ≡ [] ∷ []) }
{
    let mut path = Names::new(alloc);
    path.push(Units::new(alloc))?;
    Ok(path)
}

/// The lines where there is no such key: of a key that has nothing they are those at any name.
fn no_report(alloc: Global, form: ReportForm) -> Result<Bytes, AllocError>
    ensures { IfOk result (λ text. text ≡ printed_lines form no_key_lines) }
{
    let root = nothing(alloc);
    let path = unnamed(alloc)?;
    key_report(alloc, form, &root, &path, 0, false)
}

/// The lines at a path that needs no other in its place.
fn report_at(
    alloc: Global,
    form: ReportForm,
    cells: &Source,
    root: u32,
    path: &Names,
    depth: u32,
    security: bool,
) -> Result<Bytes, ReadStop>
    requires { HoldsTree (cells_of cells.now) root }
    ensures { (t : Tree) → Stands (cells_of cells.now) root t → IsTruePath t path.now
        → Shows (printed_lines form (path_lines security depth t (Some path.now))) result }
{
    let levels = u64::from(depth) + 1;
    let part = read_along(alloc, cells, root, path, levels)?;
    let text = key_report(alloc, form, &part, path, depth, security)?;
    Ok(text)
}

/// The lines of the key that a path means, and of that many levels below it, or that there is no such key: those of the whole
/// tree that is at the root. Each key of it must be one that a hive can hold. Out of memory alone is free.
pub fn report_in(
    alloc: Global,
    form: ReportForm,
    cells: &Source,
    root: u32,
    path: &Names,
    depth: u32,
    security: bool,
) -> Result<Bytes, ReadStop>
    requires held { HoldsTree (cells_of cells.now) root }
    ensures exact { (t : Tree) → Stands (cells_of cells.now) root t → Shows (printed_lines form (lines_of t path.now depth security)) result }
{
    let found = true_path(alloc, cells, root, path)?;
    match found {
        Some(found) => report_at(alloc, form, cells, root, &found, depth, security),
        None => Ok(no_report(alloc, form)?),
    }
}
