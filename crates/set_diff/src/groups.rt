//! The listed groups of a set with their tags, and what differs between those of two sets.

ghost use Rattle.std.specs.Prelude.{◌≡◌, ◌++◌, ◌+◌, ◌*◌, ◌≤◌, [], ◌∷◌, codes, map, length, IfOk, OnOk};
ghost use Rattle.std.specs.List.{range_with_len};
ghost use Rattle.std.specs.Option.{option_copied, option_map_or};
ghost use Rattle.nt_bytes.specs.Fields.{u32_in};
ghost use Rattle.hive_model.specs.Tree.{find_key};
ghost use Rattle.hive_model.specs.Valid.{HoldsKeys};
ghost use Rattle.start_model.specs.Order.{listed_groups, tag_bytes, tags_of, order_of, orders_of};
ghost use Rattle.set_diff.specs.Sets.{order_again, group_names, group_named, tag_lines, tags_lines};

use crate::shown::shown_same;
use answer_lines::diff_lines::{DiffLine, DiffLines, Shown};
use boot_phases::group_order::{GroupOrder, read_orders};
use nt_bytes::{Names, Row, Units, u32_at};
use nt_names::name_places::NamePlaces;
use nt_names::startup_names::{CONTROL, GROUP_ORDER_LIST, LIST, SERVICE_GROUP_ORDER};
use reg_tree::Key;
use std::alloc::{AllocError, Global};
use std::marker::Model;

/// The type of binary data.
const BINARY: u32 = 3;

/// A listed group, and its tags in their order.
#[derive(Drop)]
pub(crate) struct TaggedGroup {
    pub(crate) name: Units,
    pub(crate) tags: Row<u32>,
}

impl Model for TaggedGroup {
    ghost use Rattle.start_model.specs.Order.{GroupOrder as Ordered};

    ghost Value = { Ordered };

    ghost view = { λ a. record { name = a.name; tags = a.tags } };
}

/// The key of this name below `Control`.
fn below_control<'a>(set: &'a Key, name: &[u16]) -> Option<&'a Key>
    ensures { option_copied result ≡ find_key (codes "Control" ∷ name.now ∷ []) set.now }
{
    set.child(&CONTROL)?.child(name)
}

/// The names of the groups, as they are listed.
pub(crate) fn listed_groups(alloc: Global, set: &Key) -> Result<Names, AllocError>
    ensures { IfOk result (λ g. g ≡ listed_groups set.now) }
{
    match below_control(set, &SERVICE_GROUP_ORDER) {
        Some(key) => key.strings(alloc, &LIST),
        None => Ok(Names::new(alloc)),
    }
}

/// The listed groups of a set, each where it stands first.
#[tactic(auto, using(crate::proofs::GroupLemmas::same_orders))]
pub(crate) fn groups_of(alloc: Global, set: &Key) -> Result<Vec<TaggedGroup>, AllocError>
    requires { HoldsKeys set.now }
    ensures { IfOk result (λ g. g.items ≡ orders_of set.now) }
{
    let orders = read_orders(alloc, set)?;
    let lists = below_control(set, &GROUP_ORDER_LIST);
    with_tags(alloc, orders.as_slice(), lists)
}

/// The same groups, with the tags that these lists have for them.
fn with_tags(
    alloc: Global,
    orders: &[GroupOrder],
    lists: Option<&Key>,
) -> Result<Vec<TaggedGroup>, AllocError>
    ensures { IfOk result (λ g. g.items ≡ map (order_again (option_copied lists.entry)) orders.now) }
{
    let mut groups = Vec::new(alloc);
    for order in orders {
        groups.push(group(alloc, &order.name, lists)?)?;
    }
    Ok(groups)
}

fn group(alloc: Global, name: &Units, lists: Option<&Key>) -> Result<TaggedGroup, AllocError>
    ensures { IfOk result (λ g. g ≡ order_of (option_copied lists.entry) name.now) }
{
    let tags = tags_in(alloc, tag_bytes(lists, name))?;
    let name = name.copy(alloc)?;
    Ok(TaggedGroup { name, tags })
}

/// The bytes of the binary value of this name.
fn tag_bytes<'a>(lists: Option<&'a Key>, name: &Units) -> &'a [u8]
    ensures { result.now ≡ tag_bytes (option_copied lists.entry) name.now }
{
    let Some(key) = lists else {
        return &[];
    };
    match key.value(name.as_slice()) {
        Some(value) => if value.kind == BINARY {
            value.data()
        } else {
            &[]
        },
        None => &[],
    }
}

/// The tags that bytes of `GroupOrderList` have: a count and that many numbers, as far as they go.
fn tags_in(alloc: Global, bytes: &[u8]) -> Result<Row<u32>, AllocError>
    ensures { IfOk result (λ t. t ≡ tags_of bytes.now) }
{
    if bytes.len() < 4 {
        return Ok(Row::new(alloc));
    }
    let held = (bytes.len() - 4) / 4;
    let count = u32_at(bytes, 0) as usize;
    numbers(alloc, bytes, held.min(count))
}

/// This many numbers after the count.
fn numbers(alloc: Global, bytes: &[u8], count: usize) -> Result<Row<u32>, AllocError>
    requires within { 4 + 4 * count ≤ length bytes.now }
    ensures { IfOk result (λ t. t ≡ map (λ k. u32_in bytes.now (4 + 4 * k)) (range_with_len 0 count)) }
{
    let mut tags = Row::new(alloc);
    for k in 0..count {
        tags.push(u32_at(bytes, 4 + 4 * k))?;
    }
    Ok(tags)
}

/// The names of the groups.
pub(crate) fn group_names(alloc: Global, groups: &[TaggedGroup]) -> Result<Names, AllocError>
    ensures { IfOk result (λ n. n ≡ group_names groups.now) }
{
    let mut names = Names::new(alloc);
    for group in groups {
        names.push(group.name.copy(alloc)?)?;
    }
    Ok(names)
}

// ---- groups that both sets list

/// Appends the tags of each group that both sets list, where they differ. `places` are those of the names of the other set's groups.
pub(crate) fn put_tags(
    alloc: Global,
    groups: &[TaggedGroup],
    others: &[TaggedGroup],
    places: &NamePlaces,
    lines: &mut DiffLines,
) -> Result<(), AllocError>
    requires { places.now ≡ group_names others.now }
    ensures { OnOk result (lines.new ≡ lines.old ++ tags_lines groups.now others.now) }
{
    for group in groups {
        put_paired(alloc, group, group_named(others, places, group), lines)?;
    }
    Ok(())
}

/// The other set's group of this one's name.
fn group_named<'a>(
    others: &'a [TaggedGroup],
    places: &NamePlaces,
    group: &TaggedGroup,
) -> Option<&'a TaggedGroup>
    requires { places.now ≡ group_names others.now }
    ensures { option_copied result ≡ group_named others.now group.now.name }
{
    let place = places.place_of(group.name.as_slice())?;
    others.get(place)
}

fn put_paired(
    alloc: Global,
    group: &TaggedGroup,
    other: Option<&TaggedGroup>,
    lines: &mut DiffLines,
) -> Result<(), AllocError>
    ensures { OnOk result (lines.new ≡ lines.old ++ option_map_or (tag_lines group.now) (option_copied other.entry) []) }
{
    match other {
        Some(other) => put_pair(alloc, group, other, lines),
        None => Ok(()),
    }
}

fn put_pair(
    alloc: Global,
    a: &TaggedGroup,
    b: &TaggedGroup,
    lines: &mut DiffLines,
) -> Result<(), AllocError>
    ensures { OnOk result (lines.new ≡ lines.old ++ tag_lines a.now b.now) }
{
    let first = tags_shown(alloc, a)?;
    let second = tags_shown(alloc, b)?;
    if shown_same(&first, &second) {
        return Ok(());
    }
    lines.push(DiffLine::Tags {
        first,
        second,
        group: a.name.copy(alloc)?,
    })
}

fn tags_shown(alloc: Global, group: &TaggedGroup) -> Result<Shown, AllocError>
    ensures { IfOk result (λ s. s ≡ Shown.Numbers group.now.tags) }
{
    let tags = Vec::from_slice(alloc, group.tags.as_slice())?;
    Ok(Shown::Numbers(Row::from_vec(tags)))
}
