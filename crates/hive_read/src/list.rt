//! Subkey lists.

ghost use Rattle.std.specs.Prelude.{◌≡◌, Ok};
ghost use Rattle.hive_cells.specs.Sources.{cells_of};
ghost use Rattle.hive_model.specs.Walk.{is_list_of_lists, joined_at, entries_at, leaves_checks, entries_checks};
ghost use Rattle.cell_forms.specs.Views.{kind_of};
ghost use Rattle.hive_read.specs.Walked.{walk, Steps};

use crate::used::Used;
use crate::uses::{use_leaf, use_list};
use cell_forms::{ListKind, Offsets};
use hive_cells::Source;
use nt_bytes::ReadStop;
use std::alloc::Global;

fn lists_lists(kind: ListKind) -> bool
    ensures { result ≡ is_list_of_lists (kind_of kind) }
{
    match kind {
        ListKind::Li => false,
        ListKind::Lf => false,
        ListKind::Lh => false,
        ListKind::Ri => true,
    }
}

// The entries of the lists at these offsets, joined in order.
fn read_leaves(
    alloc: Global,
    cells: &Source,
    used: &mut Used,
    lists: &[u32],
) -> Result<Offsets, ReadStop>
    ensures { Steps (λ o. joined_at (cells_of cells.now) lists.now ≡ Ok o)
        (walk (cells_of cells.now) used.old (leaves_checks (cells_of cells.now) lists.now)) used.new result }
{
    let mut all = Vec::new(alloc);
    let mut rest = lists;
    'lists: loop {
        let [at, more @ ..] = rest else {
            return Ok(Offsets::from_vec(all));
        };
        let leaf = use_leaf(alloc, cells, used, *at)?;
        all.extend_from_slice(leaf.as_slice())?;
        rest = more;
    }
}

/// The offsets of children that the list at an offset names, in order, through a list of lists too.
pub(crate) fn read_entries(
    alloc: Global,
    cells: &Source,
    used: &mut Used,
    at: u32,
) -> Result<Offsets, ReadStop>
    ensures { Steps (λ o. entries_at (cells_of cells.now) at ≡ Ok o)
        (walk (cells_of cells.now) used.old (entries_checks (cells_of cells.now) at)) used.new result }
{
    let list = use_list(alloc, cells, used, at)?;
    if lists_lists(list.kind) {
        return read_leaves(alloc, cells, used, list.offsets.as_slice());
    }
    Ok(list.offsets)
}
