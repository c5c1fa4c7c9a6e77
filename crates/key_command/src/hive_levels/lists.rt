//! Where the children of a key are.

ghost use Rattle.std.specs.Prelude.{◌≡◌};
ghost use Rattle.hive_model.specs.Walk.{entries_at, is_list_of_lists, joined_at};
ghost use Rattle.cell_forms.specs.Views.{kind_of, node_seen};
ghost use Rattle.hive_cells.specs.Sources.{cells_of};
ghost use Rattle.key_command.specs.hive_levels.Reading.{Answers, children_of};

use crate::hive_levels::cells::{leaf_at, list_at};
use cell_forms::{ListKind, NkSlice, Offsets};
use hive_cells::Source;
use nt_bytes::ReadStop;
use std::alloc::Global;

fn lists_lists(kind: ListKind) -> bool
    ensures { result ≡ is_list_of_lists (kind_of kind) }
{
    match kind {
        ListKind::Li => false,
        ListKind::Lf => false,
        ListKind::Lh => false,
        ListKind::Ri => true,
    }
}

/// The entries of the lists at these offsets, joined in order.
fn joined_at(alloc: Global, cells: &Source, lists: &[u32]) -> Result<Offsets, ReadStop>
    ensures { Answers (λ o. o) (joined_at (cells_of cells.now) lists.now) result }
{
    let mut all = Vec::new(alloc);
    let mut rest = lists;
    'lists: loop {
        let [at, more @ ..] = rest else {
            return Ok(Offsets::from_vec(all));
        };
        let leaf = leaf_at(alloc, cells, *at)?;
        all.extend_from_slice(leaf.as_slice())?;
        rest = more;
    }
}

/// The offsets of the children that the list at an offset names, through a list of lists too.
#[tactic(auto, unfolding(hive_model::specs::Walk::entries_at))]
fn entries_at(alloc: Global, cells: &Source, at: u32) -> Result<Offsets, ReadStop>
    ensures { Answers (λ o. o) (entries_at (cells_of cells.now) at) result }
{
    let list = list_at(alloc, cells, at)?;
    if lists_lists(list.kind) {
        return joined_at(alloc, cells, list.offsets.as_slice());
    }
    Ok(list.offsets)
}

/// The offsets of a key's children, in order.
pub(crate) fn children_of(
    alloc: Global,
    cells: &Source,
    node: &NkSlice,
) -> Result<Offsets, ReadStop>
    ensures { Answers (λ o. o) (children_of (cells_of cells.now) (node_seen node.now)) result }
{
    if node.child_count == 0 {
        return Ok(Offsets::new(alloc));
    }
    entries_at(alloc, cells, node.child_list)
}
