//! The cells of a key that goes: its parent's lists without it, its own cells freed, and the counts of its security lowered.

ghost use Rattle.std.specs.Prelude.{◌≡◌, ◌≤◌, ◌<◌, length, IfOk, MatchBool, OnErr};
ghost use Rattle.std.specs.Option.{IsSomeAnd, MatchOption};
ghost use Rattle.hive_model.specs.Bins.{look_up};
ghost use Rattle.hive_cells.specs.Held.{held_at};
ghost use Rattle.key_index.specs.Lists.{lists_at, ListsSiblings};
ghost use Rattle.key_index.specs.Relists.{AreApart};
ghost use Rattle.hive_edit.specs.Dropped.{AreDropped, AreShortened, CanDrop, CanRemove, IsLowered, IsRemoved, LacksRoomWithout};

use crate::making::{Above, note, uses_at};
use hive_cells::OpenHeap;
use hive_pack::NOWHERE;
use key_index::{Removal, remove_child};
use nt_bytes::HiveVersion;
use std::alloc::{AllocError, Global};

/// One key less uses the security cell, which stays even where none uses it.
fn lower(heap: &mut OpenHeap, at: u32)
    requires { IsSomeAnd (held_at heap.old.bins at) (λ p. 20 ≤ length p) }
    ensures lowered { IsLowered at heap.old.bins heap.new.bins }
    ensures base { heap.new.base ≡ heap.old.base }
{
    let uses = uses_at(heap, at).saturating_sub(1);
    heap.patch(at, 12, &uses.to_le_bytes());
}

/// Drops these cells: one that is used as security is counted again, each other one is freed.
fn drop_uses(heap: &mut OpenHeap, uses: &[(u32, bool)])
    requires { CanDrop heap.old.bins uses.now }
    ensures dropped { AreDropped uses.now uses.now heap.old.bins heap.new.bins }
    ensures base { heap.new.base ≡ heap.old.base }
{
    for used in uses {
        let (at, security) = *used;
        if security {
            lower(heap, at);
            continue;
        }
        heap.free(at);
    }
}

/// The lists of a parent without a child: where they begin, or nowhere where no child is left. `None` where there is no
/// room for them; the cells are then as they were.
fn shorten(
    alloc: Global,
    heap: &mut OpenHeap,
    version: HiveVersion,
    above: Above,
    child: u32,
) -> Result<Option<u32>, AllocError>
    requires siblings { ListsSiblings (look_up version heap.old.bins) above.list above.count }
    requires apart { AreApart (lists_at (look_up version heap.old.bins) above.list above.count) }
    ensures exact { IfOk result (λ r. MatchOption r (LacksRoomWithout version above child heap.old.bins heap.new.bins)
        (AreShortened version above child heap.old.bins heap.new.bins)) }
    ensures refused { OnErr result (heap.new ≡ heap.old) }
    ensures base { heap.new.base ≡ heap.old.base }
{
    match remove_child(alloc, heap, version, above.list, above.count, child)? {
        Removal::NoRoom => Ok(None),
        Removal::Empty => Ok(Some(NOWHERE)),
        Removal::List(at) => Ok(Some(at)),
    }
}

/// Takes a child out of its parent, with the cells that it and the keys below it use. `false` where there is no room for
/// the parent's lists without it; the cells are then as they were.
pub(crate) fn take_child(
    alloc: Global,
    heap: &mut OpenHeap,
    version: HiveVersion,
    parent: u32,
    above: Above,
    child: u32,
    uses: &[(u32, bool)],
) -> Result<bool, AllocError>
    requires { CanRemove version parent above uses.now heap.old.bins }
    ensures removed { IfOk result (λ done. MatchBool done (IsRemoved version parent above child uses.now heap.old.bins heap.new.bins)
        (LacksRoomWithout version above child heap.old.bins heap.new.bins)) }
    ensures refused { OnErr result (heap.new ≡ heap.old) }
    ensures base { heap.new.base ≡ heap.old.base }
{
    match shorten(alloc, heap, version, above, child)? {
        None => Ok(false),
        Some(list) => {
            note(heap, parent, above.count - 1, above.volatile, list);
            drop_uses(heap, uses);
            Ok(true)
        }
    }
}
