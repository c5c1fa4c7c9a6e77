//! The groups of `ServiceGroupOrder`, each with its tags of `GroupOrderList`.

ghost use Rattle.std.specs.Prelude.{◌≡◌, ◌↔◌, ◌+◌, ◌*◌, ◌^◌, ◌<◌, ◌≤◌, [], ◌∷◌, codes, map, length, position, All, IfOk, IfSome, IsTrue, Some};
ghost use Rattle.std.specs.List.{range_with_len};
ghost use Rattle.std.specs.Option.{option_copied};
ghost use Rattle.hive_model.specs.Tree.{find_key};
ghost use Rattle.hive_model.specs.Valid.{HoldsKeys};
ghost use Rattle.nt_bytes.specs.Folding.{folds_same};
ghost use Rattle.start_model.specs.Order.{first_names, listed_groups, order_of, orders_of, tags_of};
ghost use Rattle.nt_bytes.specs.Fields.{u32_in};
ghost use Rattle.boot_phases.specs.group_order.Few.{AreFew};

use crate::group_order::lists::TagLists;
use crate::group_order::tags::Tags;
use nt_bytes::{Names, Units, u32_at};
use nt_names::name_places::NamePlaces;
use nt_names::startup_names::{CONTROL, GROUP_ORDER_LIST, LIST, SERVICE_GROUP_ORDER};
use reg_tree::Key;
use std::alloc::{AllocError, Global};
use std::marker::Model;

/// A group and the order of its tags.
#[derive(Drop)]
pub struct GroupOrder {
    pub name: Units,
    pub tags: Tags,
}

impl Model for GroupOrder {
    ghost use Rattle.start_model.specs.Order.{GroupOrder as Ordered};

    ghost Value = { Ordered };

    ghost view = { λ a. record { name = a.name; tags = a.tags } };
}

/// The groups in their order, each found by its name without a scan.
#[derive(Drop)]
pub struct Orders {
    items: Vec<GroupOrder>,
    places: NamePlaces,
}

impl Model for Orders {
    ghost use Rattle.std.specs.Prelude.{◌≡◌, List, map};
    ghost use Rattle.start_model.specs.Order.{GroupOrder as Ordered};
    ghost use Rattle.boot_phases.specs.group_order.Few.{AreFew};

    ghost Value = { List Ordered };

    ghost view = { λ a. a.items.items };

    ghost invariant = { λ a. AreFew a.items.items × (a.places ≡ map (λ o. o.name) a.items.items) };
}

impl Orders {
    /// The groups with their tags. Places in them fit 32 bits.
    pub fn as_slice(&self) -> &[GroupOrder]
        ensures same { result.now ≡ self.now }
        ensures few { AreFew self.now }
    {
        self.items.as_slice()
    }

    /// The place of the group of this name. Takes no memory.
    pub fn place_of(&self, name: &[u16]) -> Option<usize>
        ensures place { result ≡ position (λ o. folds_same name.now o.name) self.now }
        ensures within { IfSome result (λ at. at < length self.now) }
    {
        self.places.place_of(name)
    }
}

/// The orders of a control set.
#[tactic(auto, using(start_model::proofs::HeldLemmas::listed_groups_few, crate::proofs::NameLemmas::length_first_names))]
pub fn read_orders(alloc: Global, set: &Key) -> Result<Orders, AllocError>
    requires { HoldsKeys set.now }
    ensures { IfOk result (λ o. o ≡ orders_of set.now) }
{
    let listed = listed_groups(alloc, set)?;
    let groups = first_names(alloc, listed)?;
    let lists = TagLists::new(alloc, below_control(set, &GROUP_ORDER_LIST))?;
    orders_among(alloc, groups, &lists)
}

/// The key of this name below `Control`.
fn below_control<'a>(set: &'a Key, name: &[u16]) -> Option<&'a Key>
    ensures { option_copied result ≡ find_key (codes "Control" ∷ name.now ∷ []) set.now }
{
    set.child(&CONTROL)?.child(name)
}

/// The groups of `ServiceGroupOrder` in their order.
fn listed_groups(alloc: Global, set: &Key) -> Result<Names, AllocError>
    ensures { IfOk result (λ g. g ≡ listed_groups set.now) }
{
    match below_control(set, &SERVICE_GROUP_ORDER) {
        Some(key) => key.strings(alloc, &LIST),
        None => Ok(Names::new(alloc)),
    }
}

/// The names without those that fold as one before them. Takes n log n time.
fn first_names(alloc: Global, names: Names) -> Result<Names, AllocError>
    ensures { IfOk result (λ n. n ≡ first_names names) }
{
    let places = NamePlaces::new(alloc, names)?;
    let mut first = Names::new(alloc);
    for (place, name) in places.as_slice().iter().enumerate() {
        if is_first(&places, name.as_slice(), place) {
            first.push(name.copy(alloc)?)?;
        }
    }
    Ok(first)
}

/// Whether this is the first place of a name that folds as this one does.
fn is_first(places: &NamePlaces, name: &[u16], place: usize) -> bool
    ensures { IsTrue result ↔ position (folds_same name.now) places.now ≡ Some place }
{
    places.place_of(name) == Some(place)
}

/// The orders that these groups have in `GroupOrderList`.
fn orders_among(alloc: Global, groups: Names, lists: &TagLists) -> Result<Orders, AllocError>
    requires few { length groups < 2 ^ 32 }
    ensures { IfOk result (λ o. o ≡ map (order_of lists.now) groups) }
{
    let items = each_order(alloc, groups.as_slice(), lists)?;
    let places = NamePlaces::new(alloc, groups)?;
    Ok(Orders { items, places })
}

/// Each group with its tags.
fn each_order(
    alloc: Global,
    groups: &[Units],
    lists: &TagLists,
) -> Result<Vec<GroupOrder>, AllocError>
    ensures orders { IfOk result (λ v. v.items ≡ map (order_of lists.now) groups.now) }
    ensures few { IfOk result (λ v. All (λ o. length o.tags < 2 ^ 32) v.items) }
{
    let mut items = Vec::new(alloc);
    for name in groups {
        items.push(read_order(alloc, name, lists)?)?;
    }
    Ok(items)
}

fn read_order(alloc: Global, name: &Units, lists: &TagLists) -> Result<GroupOrder, AllocError>
    ensures order { IfOk result (λ o. o ≡ order_of lists.now name.now) }
    ensures few { IfOk result (λ o. length o.tags < 2 ^ 32) }
{
    Ok(GroupOrder {
        name: Units::from_slice(alloc, name.as_slice())?,
        tags: read_tags(alloc, lists.bytes(name.as_slice()))?,
    })
}

/// The tags that a value of `GroupOrderList` holds: a count and that many numbers, as far as they go.
fn read_tags(alloc: Global, bytes: &[u8]) -> Result<Tags, AllocError>
    ensures tags { IfOk result (λ t. t ≡ tags_of bytes.now) }
    ensures few { IfOk result (λ t. length t < 2 ^ 32) }
{
    if bytes.len() < 4 {
        return Tags::from_vec(alloc, Vec::new(alloc));
    }
    let held = (bytes.len() - 4) / 4;
    let count = u32_at(bytes, 0) as usize;
    Tags::from_vec(alloc, numbers(alloc, bytes, held.min(count))?)
}

/// This many numbers after the count.
fn numbers(alloc: Global, bytes: &[u8], count: usize) -> Result<Vec<u32>, AllocError>
    requires within { 4 + 4 * count ≤ length bytes.now }
    ensures numbers { IfOk result (λ v. v.items ≡ map (λ k. u32_in bytes.now (4 + 4 * k)) (range_with_len 0 count)) }
    ensures len { IfOk result (λ v. length v.items ≡ count) }
{
    let mut items = Vec::new(alloc);
    for k in 0..count {
        items.push(u32_at(bytes, 4 + 4 * k))?;
    }
    Ok(items)
}
