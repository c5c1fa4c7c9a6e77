//! Where an entry stands by its group and its tag.

ghost use Rattle.std.specs.Prelude.{◌≡◌, ◌≤◌, ◌<◌, ◌^◌, length, nat_eq};
ghost use Rattle.std.specs.Option.{option_copied, option_map_or};
ghost use Rattle.start_model.specs.Order.{group_place, tag_place, tag_place_in, first_place};
ghost use Rattle.boot_phases.specs.group_order.Few.{AreFew};

use crate::group_order::order::{GroupOrder, Orders};
use crate::group_order::tags::Tags;
use nt_bytes::Units;

/// The place of the group, and the place of the tag where tags count.
pub fn rank(
    orders: &Orders,
    group: Option<&Units>,
    tag: Option<u32>,
    tags_count: bool,
) -> (u32, u32)
    ensures group { result.0 ≡ group_place orders.now (option_copied group.entry) }
    ensures tag { result.1 ≡ tag_place orders.now (option_copied group.entry) tag tags_count }
{
    let groups = orders.as_slice();
    let place = place_of_group(orders, group);
    let in_group = if tags_count {
        place_of_tag(groups, place, tag)
    } else {
        0
    };
    (place as u32, in_group as u32)
}

fn place_of_group(orders: &Orders, group: Option<&Units>) -> usize
    ensures place { result ≡ group_place orders.now (option_copied group.entry) }
    ensures within { result ≤ length orders.now }
{
    let listed = group.and_then(|name| orders.place_of(name.as_slice()));
    listed.unwrap_or(orders.as_slice().len())
}

fn place_of_tag(orders: &[GroupOrder], place: usize, tag: Option<u32>) -> usize
    requires few { AreFew orders.now }
    ensures place { result ≡ tag_place_in orders.now place tag }
    ensures small { result < 2 ^ 32 }
{
    if place < orders.len() {
        let order = &orders[place];
        place_among(&order.tags, tag)
    } else {
        0
    }
}

fn place_among(tags: &Tags, tag: Option<u32>) -> usize
    ensures place { result ≡ option_map_or (λ t. first_place (λ x. nat_eq x t) tags.now) tag (length tags.now) }
    ensures within { result ≤ length tags.now }
{
    tag.and_then(|t| tags.place_of(t)).unwrap_or(tags.len())
}
