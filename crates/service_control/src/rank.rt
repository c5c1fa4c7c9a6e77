//! Where an entry stands among the others by its group.

ghost use Rattle.std.specs.Prelude.{◌≡◌, ◌<◌, ◌^◌, length, map, option_map, slice_get, IfOk};
ghost use Rattle.start_model.specs.Order.{group_place, ordered_of};
ghost use Rattle.service_control.specs.First.{by_group_of, group_rank, ranks_of};

use crate::lists::picked;
use boot_phases::group_order::{Orders, rank};
use dependencies::{Need, Needs};
use std::alloc::{AllocError, Global};
use std::marker::Model;

/// The place of the group, that of the tag, which is 0, and the place in the registry. What is less comes first.
#[derive(Clone, Copy, PartialEq, Eq, PartialOrd, Ord)]
struct Rank {
    group: u32,
    tag: u32,
    place: u32,
}

impl Model for Rank {
    ghost use Rattle.start_model.specs.Order.{Rank as Ranked};

    ghost Value = { Ranked };

    ghost view = { λ a. record { group = a.group; tag = a.tag; place = a.place } };

    ghost inverse = { λ d. record { group = d.group; tag = d.tag; place = d.place } };
}

/// The entries by the place of their group, and as they stand within one.
pub(crate) fn by_group(alloc: Global, orders: &Orders, table: &[Need]) -> Result<Needs, AllocError>
    requires { length table.now < 2 ^ 32 }
    ensures { IfOk result (λ n. n ≡ by_group_of orders.now table.now) }
{
    let mut ranks = ranks(alloc, orders, table)?;
    in_order(&mut ranks);
    let places = places(alloc, ranks.as_slice())?;
    picked(alloc, table, places.as_slice())
}

/// The ranks of the entries.
fn ranks(alloc: Global, orders: &Orders, table: &[Need]) -> Result<Vec<Rank>, AllocError>
    requires { length table.now < 2 ^ 32 }
    ensures { IfOk result (λ r. r.items ≡ ranks_of orders.now table.now) }
{
    let mut ranks = Vec::new(alloc);
    for place in 0..table.len() {
        if let Some(found) = rank_at(orders, table, place as u32) {
            ranks.push(found)?;
        }
    }
    Ok(ranks)
}

fn rank_at(orders: &Orders, table: &[Need], place: u32) -> Option<Rank>
    ensures { result ≡ option_map (group_rank orders.now place) (slice_get table.now place) }
{
    let need = table.get(place as usize)?;
    let group = group_place(orders, need);
    Some(Rank {
        group,
        tag: 0,
        place,
    })
}

fn group_place(orders: &Orders, need: &Need) -> u32
    ensures { result ≡ group_place orders.now need.now.group }
{
    let (group, _) = rank(orders, need.group.as_ref(), None, false);
    group
}

/// Puts the ranks in their order.
fn in_order(ranks: &mut Vec<Rank>)
    ensures { ranks.new.items ≡ ordered_of ranks.old.items }
{
    ranks.sort_unstable();
}

/// The places that the ranks have.
fn places(alloc: Global, ranks: &[Rank]) -> Result<Vec<u32>, AllocError>
    ensures { IfOk result (λ p. p.items ≡ map (λ r. r.place) ranks.now) }
{
    ranks.iter().map(|r| r.place).collect(alloc)
}
