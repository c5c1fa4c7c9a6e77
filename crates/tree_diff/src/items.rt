//! The values of two keys.

ghost use Rattle.std.specs.Prelude.{◌≡◌, ◌++◌, [], IfOk, OnOk};
ghost use Rattle.std.specs.List.{flat_map};
ghost use Rattle.std.specs.Option.{option_copied, option_map_or};
ghost use Rattle.tree_diff.specs.Heads.{item_names, item_named, same_item, data_line, item_lines, paired_items, lone_item, lone_items, items_lines};

use crate::heads::{same_bytes, same_units};
use answer_lines::diff_lines::{DiffLine, DiffLines, Side};
use nt_bytes::{Bytes, Names, Units};
use nt_names::name_places::NamePlaces;
use reg_tree::Value;
use set_diff::lacks;
use std::alloc::{AllocError, Global};

/// The names of the values.
pub(crate) fn item_names(alloc: Global, items: &[Value]) -> Result<Names, AllocError>
    ensures { IfOk result (λ n. n ≡ item_names items.now) }
{
    let mut names = Names::new(alloc);
    for item in items {
        names.push(item.name.copy(alloc)?)?;
    }
    Ok(names)
}

fn data_line(alloc: Global, side: Side, item: &Value) -> Result<DiffLine, AllocError>
    ensures { IfOk result (λ l. l ≡ data_line side item.now) }
{
    Ok(DiffLine::Data {
        side,
        kind: item.kind,
        bytes: Bytes::from_slice(alloc, item.data())?,
    })
}

fn same_item(a: &Value, b: &Value) -> bool
    ensures { result ≡ same_item a.now b.now }
{
    a.kind == b.kind && same_units(a.name(), b.name()) && same_bytes(a.data(), b.data())
}

// ---- values that both have

/// Appends the values that both keys have, where they differ. `places` are those of the names of the second key's values.
fn put_pairs(
    alloc: Global,
    path: &[Units],
    items: &[Value],
    others: &[Value],
    places: &NamePlaces,
    lines: &mut DiffLines,
) -> Result<(), AllocError>
    requires { places.now ≡ item_names others.now }
    ensures { OnOk result (lines.new ≡ lines.old ++ flat_map (paired_items path.now others.now) items.now) }
{
    for item in items {
        put_paired(alloc, path, item, item_named(others, places, item), lines)?;
    }
    Ok(())
}

/// The other value of this one's name.
fn item_named<'a>(others: &'a [Value], places: &NamePlaces, item: &Value) -> Option<&'a Value>
    requires { places.now ≡ item_names others.now }
    ensures { option_copied result ≡ item_named others.now item.now.name }
{
    let place = places.place_of(item.name())?;
    others.get(place)
}

fn put_paired(
    alloc: Global,
    path: &[Units],
    item: &Value,
    other: Option<&Value>,
    lines: &mut DiffLines,
) -> Result<(), AllocError>
    ensures { OnOk result (lines.new ≡ lines.old ++ option_map_or (item_lines path.now item.now) (option_copied other.entry) []) }
{
    match other {
        Some(other) => put_pair(alloc, path, item, other, lines),
        None => Ok(()),
    }
}

fn put_pair(
    alloc: Global,
    path: &[Units],
    a: &Value,
    b: &Value,
    lines: &mut DiffLines,
) -> Result<(), AllocError>
    ensures { OnOk result (lines.new ≡ lines.old ++ item_lines path.now a.now b.now) }
{
    if same_item(a, b) {
        return Ok(());
    }
    let name = a.name.copy(alloc)?;
    let path = Names::from_slice(alloc, path)?;
    lines.push(DiffLine::ValueDiffers { name, path })?;
    lines.push(data_line(alloc, Side::First, a)?)?;
    lines.push(data_line(alloc, Side::Second, b)?)
}

// ---- values that one key alone has

fn put_lone(
    alloc: Global,
    side: Side,
    path: &[Units],
    items: &[Value],
    others: &NamePlaces,
    lines: &mut DiffLines,
) -> Result<(), AllocError>
    ensures { OnOk result (lines.new ≡ lines.old ++ lone_items side path.now items.now others.now) }
{
    for item in items {
        put_lone_item(alloc, side, path, item, others, lines)?;
    }
    Ok(())
}

fn put_lone_item(
    alloc: Global,
    side: Side,
    path: &[Units],
    item: &Value,
    others: &NamePlaces,
    lines: &mut DiffLines,
) -> Result<(), AllocError>
    ensures { OnOk result (lines.new ≡ lines.old ++ lone_item side path.now others.now item.now) }
{
    if !lacks(others, &item.name) {
        return Ok(());
    }
    let name = item.name.copy(alloc)?;
    let path = Names::from_slice(alloc, path)?;
    lines.push(DiffLine::ValueOnly { side, name, path })?;
    lines.push(data_line(alloc, side, item)?)
}

/// Appends the lines on the values of two keys. `by_a` and `by_b` are the places of their names.
pub(crate) fn put_items(
    alloc: Global,
    path: &[Units],
    a: &[Value],
    by_a: &NamePlaces,
    b: &[Value],
    by_b: &NamePlaces,
    lines: &mut DiffLines,
) -> Result<(), AllocError>
    requires first { by_a.now ≡ item_names a.now }
    requires second { by_b.now ≡ item_names b.now }
    ensures { OnOk result (lines.new ≡ lines.old ++ items_lines path.now a.now b.now) }
{
    put_pairs(alloc, path, a, b, by_b, lines)?;
    put_lone(alloc, Side::First, path, a, by_b, lines)?;
    put_lone(alloc, Side::Second, path, b, by_a, lines)
}
