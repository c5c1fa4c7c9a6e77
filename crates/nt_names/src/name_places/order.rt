//! Places by the folded order of the names at them.

ghost use Rattle.std.specs.Prelude.{◌≡◌, slice_index_or, [], IfOk};
ghost use Rattle.std.specs.List.{range_with_len};
ghost use Rattle.nt_names.specs.name_places.Places.{places_named};
ghost use Rattle.nt_names.specs.name_places.Order.{IsOrderOf};

use nt_bytes::{Units, compare_folded};
use std::alloc::{AllocError, Global};

/// The places of the names, by their folded order. Names that fold to one keep their order.
pub(crate) fn in_order(alloc: Global, names: &[Units]) -> Result<Vec<usize>, AllocError>
    ensures { IfOk result (λ order. IsOrderOf names.now order.items) }
{
    let mut order = all_places(alloc, names.len())?;
    order.sort_by(|a, b| compare_folded(name_at(names, *a), name_at(names, *b)))?;
    Ok(order)
}

/// The places of that many items, as they stand.
fn all_places(alloc: Global, count: usize) -> Result<Vec<usize>, AllocError>
    ensures { IfOk result (λ places. places.items ≡ range_with_len 0 count) }
{
    (0..count).collect(alloc)
}

/// The part of the order whose names fold as this one does.
pub(crate) fn named_part<'a>(names: &[Units], order: &'a [usize], name: &[u16]) -> &'a [usize]
    requires { IsOrderOf names.now order.now }
    ensures { result.now ≡ places_named name.now names.now }
{
    let low = order.partition_point(|k| compare_folded(name_at(names, *k), name).is_lt());
    let high = order.partition_point(|k| compare_folded(name_at(names, *k), name).is_le());
    &order[low..high]
}

/// The name at this place, or no units where there is none.
fn name_at(names: &[Units], place: usize) -> &[u16]
    ensures { result.now ≡ slice_index_or names.now place [] }
{
    match names.get(place) {
        Some(name) => name.as_slice(),
        None => &[],
    }
}
