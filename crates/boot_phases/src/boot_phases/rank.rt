//! Where an entry is in its phase.

ghost use Rattle.std.specs.Prelude.{◌≡◌, ℕ, ◌<◌, true, List, length, slice_get, slice_index_or, count_by, AllPairs, IfOk};
ghost use Rattle.std.specs.List.{filter_map};
ghost use Rattle.std.specs.Option.{option_map};
ghost use Rattle.std.specs.Ordering.{is_eq};
ghost use Rattle.hive_model.specs.Tree.{Tree};
ghost use Rattle.start_model.specs.Entries.{Phase as InBook};
ghost use Rattle.start_model.specs.Order.{Rank, is_before, ordered_of, rank_of, rank_order, ranks_of};

use crate::group_order::{Orders, rank};
use crate::service_entries::ServiceTable;
use std::alloc::{AllocError, Global};
use std::marker::Model;

/// The place of the group, the place of the tag, and the place in the registry. What is less comes first.
#[derive(Clone, Copy, PartialEq, Eq, PartialOrd, Ord)]
pub(crate) struct Rank {
    group: u32,
    tag: u32,
    pub(crate) place: u32,
}

impl Model for Rank {
    ghost use Rattle.start_model.specs.Order.{Rank as Ranked};

    ghost Value = { Ranked };

    ghost view = { λ a. record { group = a.group; tag = a.tag; place = a.place } };

    ghost inverse = { λ d. record { group = d.group; tag = d.tag; place = d.place } };
}

/// The ranks of the entries at these places.
pub(crate) fn ranks_at(
    alloc: Global,
    table: &ServiceTable,
    orders: &Orders,
    tags_count: bool,
    places: &[u32],
) -> Result<Vec<Rank>, AllocError>
    ensures { IfOk result (λ r. r.items ≡ filter_map (λ p. option_map (rank_of orders.now tags_count p) (slice_get table.now p)) places.now) }
{
    let mut ranks = Vec::new(alloc);
    for place in places {
        if let Some(found) = rank_at(table, orders, tags_count, *place) {
            ranks.push(found)?;
        }
    }
    Ok(ranks)
}

fn rank_at(table: &ServiceTable, orders: &Orders, tags_count: bool, place: u32) -> Option<Rank>
    ensures { result ≡ option_map (rank_of orders.now tags_count place) (slice_get table.now place) }
{
    let entry = table.get(place)?;
    let (group, tag) = rank(orders, entry.group.as_ref(), entry.tag, tags_count);
    Some(Rank { group, tag, place })
}

/// Puts the ranks in their order.
pub(crate) fn in_order(ranks: &mut Vec<Rank>)
    ensures { ranks.new.items ≡ ordered_of ranks.old.items }
{
    ranks.sort_unstable();
}

/// Where the places of the ranks rise, as in the registry, the same number of ranks are before a rank as stand ahead of it.
pub fn each_place_counts_those_before()
    ensures { (ranks : List Rank) → AllPairs (λ a b. a.place < b.place) ranks → (k : ℕ) (d : Rank) → k < length (ordered_of ranks)
        → count_by (λ s. is_before s (slice_index_or (ordered_of ranks) k d)) ranks ≡ k }
{}

/// In the order of a phase each rank is before each later one, and ranks are in it as often as among
/// those that are put in order.
pub fn a_plan_is_in_order()
    ensures before { (set : Tree) (phase : InBook) (tried : List (List ℕ)) → AllPairs (λ a b. is_before a b ≡ true) (ordered_of (ranks_of set phase tried)) }
    ensures same { (ranks : List Rank) (r : Rank) → count_by (λ s. is_eq (rank_order r s)) (ordered_of ranks) ≡ count_by (λ s. is_eq (rank_order r s)) ranks }
{}
