//! The cells of a key that is put below another with all below it: one run, new lists of the key above, and the count of the
//! security that it shares.

ghost use Rattle.std.specs.Prelude.{◌≡◌, ◌≤◌, ◌<◌, ◌⊎◌, length, IfOk, MatchBool, OnErr};
ghost use Rattle.std.specs.Option.{IsSomeAnd};
ghost use Rattle.hive_model.specs.Limits.{most_bins};
ghost use Rattle.hive_model.specs.Packed.{sharers};
ghost use Rattle.hive_model.specs.Walk.{nowhere};
ghost use Rattle.hive_cells.specs.Held.{held_at};
ghost use Rattle.hive_edit.specs.Making.{IsLinkable, LacksListRoom};
ghost use Rattle.hive_edit.specs.Grafted.{run_of, sharing, CanGraft, IsGrafted, IsLinkedBy, IsRaisedBy, IsRunPut, LacksGraftLists};

use crate::cells::put_run;
use crate::making::{Above, note, uses_at};
use hive_cells::OpenHeap;
use hive_pack::{NOWHERE, sharing_keys, tree_fits};
use key_index::insert_child;
use nt_bytes::HiveVersion;
use reg_tree::Key;
use std::alloc::{AllocError, Global};

/// That many keys more use the security cell, if there is one.
fn raise_by(heap: &mut OpenHeap, at: u32, keys: u32)
    requires { (at ≡ nowhere → ⊥) → IsSomeAnd (held_at heap.old.bins at) (λ p. 20 ≤ length p) }
    ensures raised { IsRaisedBy at keys heap.old.bins heap.new.bins }
    ensures base { heap.new.base ≡ heap.old.base }
{
    if at == NOWHERE {
        return;
    }
    let uses = uses_at(heap, at).saturating_add(keys);
    heap.patch(at, 12, &uses.to_le_bytes());
}

/// Names a key in new lists of its parent, where that many keys more use the security. `false` where there is no room for the
/// lists; the cells are then as they were.
fn link_by(
    alloc: Global,
    heap: &mut OpenHeap,
    version: HiveVersion,
    parent: u32,
    above: Above,
    child: u32,
    keys: u32,
) -> Result<bool, AllocError>
    requires linkable { IsLinkable version parent above child heap.old.bins }
    ensures linked { IfOk result (λ done. MatchBool done (IsLinkedBy version parent above child keys heap.old.bins heap.new.bins)
        (LacksListRoom version above child heap.old.bins heap.new.bins)) }
    ensures refused { OnErr result (heap.new ≡ heap.old) }
    ensures base { heap.new.base ≡ heap.old.base }
{
    match insert_child(alloc, heap, version, above.list, above.count, child)? {
        None => Ok(false),
        Some(list) => {
            note(heap, parent, above.count + 1, above.volatile, list);
            raise_by(heap, above.security, keys);
            Ok(true)
        }
    }
}

/// How many keys of a tree use the cell of a descriptor that is shared with the key above them; an empty one has no cell.
fn sharing(shared: &[u8], key: &Key) -> u32
    requires { sharers shared.now key.now ≤ most_bins }
    ensures { result ≡ sharing shared.now key.now }
{
    if shared.len() == 0 {
        return 0;
    }
    sharing_keys(shared, key)
}

/// Puts a run at a place that has room for it, which is the cells of a key and of all below it, and names the key in new lists
/// of its parent. `false` where there is no room for the lists; the run stands there then, and nothing names it.
pub(crate) fn graft_cells(
    alloc: Global,
    heap: &mut OpenHeap,
    version: HiveVersion,
    parent: u32,
    above: Above,
    shared: &[u8],
    key: &Key,
    at: u32,
    run: &[u8],
) -> Result<bool, AllocError>
    requires can { CanGraft version parent above shared.now key.now at heap.old.bins }
    requires run { run.now ≡ run_of version parent above shared.now key.now at }
    ensures grafted { IfOk result (λ done. MatchBool done (IsGrafted version parent above shared.now key.now at heap.old.bins heap.new.bins)
        (LacksGraftLists version parent above shared.now key.now at heap.old.bins heap.new.bins)) }
    ensures refused { OnErr result ((heap.new.bins ≡ heap.old.bins) ⊎ IsRunPut version parent above shared.now key.now at heap.old.bins heap.new.bins) }
    ensures base { heap.new.base ≡ heap.old.base }
{
    tree_fits(key);
    let keys = sharing(shared, key);
    put_run(heap, at, run)?;
    link_by(alloc, heap, version, parent, above, at, keys)
}
