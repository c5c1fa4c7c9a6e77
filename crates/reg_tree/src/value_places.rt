//! Places of values of a key: found by an order of their names where one is kept, else by a scan.

ghost use Rattle.std.specs.Prelude.{◌≡◌, ◌<◌, [], ◌∷◌, ◌++◌, IfOk, None, find, length, map, position};
ghost use Rattle.std.specs.List.{filter, range_with_len};
ghost use Rattle.std.specs.List.Sorted.{IsPermutation};
ghost use Rattle.std.specs.Option.{option_copied};
ghost use Rattle.hive_model.specs.Tree.{Item, is_item};
ghost use Rattle.reg_tree.specs.Order.{name_at, is_other, lowered, IsOrderOf};

use crate::value::Value;
use nt_bytes::{compare_folded, same_folded};
use std::alloc::{AllocError, Global};

/// Where the first value with this name stands.
pub(crate) fn value_place(items: &[Value], order: &[usize], name: &[u16]) -> Option<usize>
    requires { 0 < length order.now → IsOrderOf items.now order.now }
    ensures { result ≡ position (is_item name.now) items.now }
{
    if order.is_empty() {
        items.iter().position(|v| same_folded(name, v.name()))
    } else {
        ordered_place(items, order, name)
    }
}

/// The first value with this name.
pub(crate) fn named_value<'a>(
    items: &'a [Value],
    order: &[usize],
    name: &[u16],
) -> Option<&'a Value>
    requires { 0 < length order.now → IsOrderOf items.now order.now }
    ensures { option_copied result ≡ find (is_item name.now) items.now }
{
    match value_place(items, order, name) {
        Some(at) => items.get(at),
        None => None,
    }
}

fn ordered_place(items: &[Value], order: &[usize], name: &[u16]) -> Option<usize>
    requires { IsOrderOf items.now order.now }
    ensures { result ≡ position (is_item name.now) items.now }
{
    let low = order.partition_point(|k| compare_folded(name_at(items, *k), name).is_lt());
    match order.get(low) {
        Some(k) => {
            if same_folded(name, name_at(items, *k)) {
                Some(*k)
            } else {
                None
            }
        }
        None => None,
    }
}

/// The name of the value at this place, or no units where there is none.
fn name_at(items: &[Value], place: usize) -> &[u16]
    ensures { result.now ≡ name_at items.now place }
{
    match items.get(place) {
        Some(value) => value.name(),
        None => &[],
    }
}

/// The order with the place of one more value in it, whose name no other has. No order stays none.
pub(crate) fn order_with(
    items: &[Value],
    order: Vec<usize>,
    name: &[u16],
) -> Result<Vec<usize>, AllocError>
    requires kept { 0 < length order.items → IsOrderOf items.now order.items }
    requires new { position (is_item name.now) items.now ≡ None }
    ensures { IfOk result (λ o. (v : Item) → v.name ≡ name.now → 0 < length o.items → IsOrderOf (items.now ++ v ∷ []) o.items) }
{
    if order.is_empty() {
        return Ok(order);
    }
    let mut order = order;
    let at = order
        .as_slice()
        .partition_point(|k| compare_folded(name_at(items, *k), name).is_lt());
    order.insert(at, items.len())?;
    Ok(order)
}

/// The order without a place, and each place after it one lower.
pub(crate) fn close_up(order: &mut Vec<usize>, at: usize)
    ensures { order.new.items ≡ map (lowered at) (filter (is_other at) order.old.items) }
{
    drop_place(order, at);
    lower_behind(order, at);
}

/// The order without a place.
fn drop_place(order: &mut Vec<usize>, at: usize)
    ensures { order.new.items ≡ filter (is_other at) order.old.items }
{
    order.retain(|k| *k != at);
}

/// The order with each place after one a place lower.
fn lower_behind(order: &mut Vec<usize>, at: usize)
    ensures { order.new.items ≡ map (lowered at) order.old.items }
{
    for k in 0..order.len() {
        order[k] = lowered(at, order[k]);
    }
}

/// A place once the value at another is gone.
fn lowered(at: usize, k: usize) -> usize
    ensures { result ≡ lowered at k }
{
    if at < k { k - 1 } else { k }
}

/// The order of these values, or none where two names fold to one.
pub(crate) fn order_of(alloc: Global, items: &[Value]) -> Result<Vec<usize>, AllocError>
    ensures { IfOk result (λ order. 0 < length order.items → IsOrderOf items.now order.items) }
{
    let order = sorted_places(alloc, items)?;
    if order.as_slice().is_sorted_by(|a, b| compare_folded(
        name_at(items, *a),
        name_at(items, *b),
    ).is_lt())
    {
        Ok(order)
    } else {
        Ok(Vec::new(alloc))
    }
}

fn sorted_places(alloc: Global, items: &[Value]) -> Result<Vec<usize>, AllocError>
    ensures { IfOk result (λ order. IsPermutation (range_with_len 0 (length items.now)) order.items) }
{
    let mut order = all_places(alloc, items.len())?;
    order.sort_by(|a, b| compare_folded(name_at(items, *a), name_at(items, *b)))?;
    Ok(order)
}

/// The places of that many items, as they stand.
fn all_places(alloc: Global, count: usize) -> Result<Vec<usize>, AllocError>
    ensures { IfOk result (λ places. places.items ≡ range_with_len 0 count) }
{
    (0..count).collect(alloc)
}
