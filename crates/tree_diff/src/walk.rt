//! All pairs of keys, from two keys down.

ghost use Rattle.std.specs.Prelude.{◌≡◌, ◌++◌, [], false, IfOk, OnOk};
ghost use Rattle.std.specs.Option.{option_copied, option_map_or};
ghost use Rattle.hive_model.specs.Tree.{children, head, trees};
ghost use Rattle.tree_diff.specs.Heads.{item_names, key_names, orders_lines, content_lines, own_lines, both_lone_keys};
ghost use Rattle.tree_diff.specs.Trees.{key_lines, keys_lines};

use crate::heads::{put_heads, put_order};
use crate::items::{item_names, put_items};
use crate::keys::{key_names, put_both_lone, tree_named};
use answer_lines::diff_lines::{DiffLines, KeyField};
use nt_bytes::Units;
use nt_names::name_places::NamePlaces;
use reg_tree::{Key, Value};
use std::alloc::{AllocError, Global};

/// The places of the names of values.
fn by_item(alloc: Global, items: &[Value]) -> Result<NamePlaces, AllocError>
    ensures { IfOk result (λ p. p ≡ item_names items.now) }
{
    NamePlaces::new(alloc, item_names(alloc, items)?)
}

/// The places of the names of keys.
pub(crate) fn by_key(alloc: Global, keys: &[Key]) -> Result<NamePlaces, AllocError>
    ensures { IfOk result (λ p. p ≡ key_names keys.now) }
{
    NamePlaces::new(alloc, key_names(alloc, keys)?)
}

/// Appends what comes before the lines of the children of two keys.
fn put_own(
    alloc: Global,
    top: bool,
    path: &[Units],
    a: &Key,
    b: &Key,
    lines: &mut DiffLines,
) -> Result<(), AllocError>
    ensures { OnOk result (lines.new ≡ lines.old ++ own_lines top path.now (head a.now) (children a.now) (head b.now) (children b.now)) }
{
    put_heads(alloc, top, path, a, b, lines)?;
    put_content(
        alloc,
        path,
        a.items(),
        b.items(),
        a.subkeys(),
        b.subkeys(),
        lines,
    )
}

/// Appends the order of values and children, and what differs between the values.
fn put_content(
    alloc: Global,
    path: &[Units],
    items: &[Value],
    others: &[Value],
    a: &[Key],
    b: &[Key],
    lines: &mut DiffLines,
) -> Result<(), AllocError>
    ensures { OnOk result (lines.new ≡ lines.old ++ content_lines path.now items.now others.now a.now b.now) }
{
    let by_a = by_item(alloc, items)?;
    let by_b = by_item(alloc, others)?;
    put_orders(alloc, path, &by_a, &by_b, a, b, lines)?;
    put_items(alloc, path, items, &by_a, others, &by_b, lines)
}

/// Appends that values, or children, are in another order.
fn put_orders(
    alloc: Global,
    path: &[Units],
    items: &NamePlaces,
    others: &NamePlaces,
    a: &[Key],
    b: &[Key],
    lines: &mut DiffLines,
) -> Result<(), AllocError>
    ensures { OnOk result (lines.new ≡ lines.old ++ orders_lines path.now items.now others.now (key_names a.now) (key_names b.now)) }
{
    let keys_a = by_key(alloc, a)?;
    let keys_b = by_key(alloc, b)?;
    put_order(alloc, KeyField::Values, path, items, others, lines)?;
    put_order(alloc, KeyField::Keys, path, &keys_a, &keys_b, lines)
}

/// Appends the children that one of two keys alone has.
fn put_after(
    alloc: Global,
    path: &[Units],
    a: &[Key],
    b: &[Key],
    lines: &mut DiffLines,
) -> Result<(), AllocError>
    ensures { OnOk result (lines.new ≡ lines.old ++ both_lone_keys path.now a.now b.now) }
{
    let by_a = by_key(alloc, a)?;
    let by_b = by_key(alloc, b)?;
    put_both_lone(alloc, path, a, &by_a, b, &by_b, lines)
}

/// Appends the lines of two keys and of those below them. The path grows on the way down, so that each name is copied once.
#[cycle(put_key)]
pub(crate) fn put_key(
    alloc: Global,
    top: bool,
    path: &mut Vec<Units>,
    a: &Key,
    b: &Key,
    lines: &mut DiffLines,
) -> Result<(), AllocError>
    ensures lines { OnOk result (lines.new ≡ lines.old ++ key_lines top path.old.items a.now b.now) }
    ensures path { OnOk result (path.new.items ≡ path.old.items) }
{
    put_own(alloc, top, path.as_slice(), a, b, lines)?;
    put_keys(alloc, path, a.children.as_slice(), b.subkeys(), lines)?;
    put_after(alloc, path.as_slice(), a.subkeys(), b.subkeys(), lines)
}

/// Appends the lines of each key that has one of its name among the others.
#[cycle(put_key)]
fn put_keys(
    alloc: Global,
    path: &mut Vec<Units>,
    keys: &[Key],
    others: &[Key],
    lines: &mut DiffLines,
) -> Result<(), AllocError>
    ensures lines { OnOk result (lines.new ≡ lines.old ++ keys_lines path.old.items others.now (trees keys.now)) }
    ensures path { OnOk result (path.new.items ≡ path.old.items) }
{
    let places = by_key(alloc, others)?;
    let above = path.len();
    let mut rest = keys;
    'keys: loop {
        let [key, more @ ..] = rest else {
            return Ok(());
        };
        path.push(key.name.copy(alloc)?)?;
        put_paired(alloc, path, key, tree_named(others, &places, key), lines)?;
        path.truncate(above);
        rest = more;
    }
}

#[cycle(put_key)]
fn put_paired(
    alloc: Global,
    path: &mut Vec<Units>,
    key: &Key,
    other: Option<&Key>,
    lines: &mut DiffLines,
) -> Result<(), AllocError>
    ensures lines { OnOk result (lines.new ≡ lines.old ++ option_map_or (key_lines false path.old.items key.now) (option_copied other.entry) []) }
    ensures path { OnOk result (path.new.items ≡ path.old.items) }
{
    match other {
        Some(other) => put_key(alloc, false, path, key, other, lines),
        None => Ok(()),
    }
}
