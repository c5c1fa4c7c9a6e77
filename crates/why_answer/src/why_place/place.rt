//! Where an entry is in the plan of its phase, and by what.

ghost use Rattle.std.specs.Prelude.{◌≡◌, ◌<◌, ◌+◌, ◌++◌, length, IfOk, OnOk, slice_get};
ghost use Rattle.std.specs.Option.{option_copied, option_map_or};
ghost use Rattle.start_model.specs.Entries.{is_driver, is_service};
ghost use Rattle.answer_lines.specs.declared.why_lines.lines.TagPlace.TheVariants.{Idle};
ghost use Rattle.why_answer.specs.why_place.Place.{kind_of, entry_line, group_word, group_line, tag_in, tag_of_group, tag_word, tag_line, registry_lines, order_word, after_lines, before_lines, entry_before, front_lines, neighbour_lines, place_lines};

use crate::why_place::orders::SetOrder;
use answer_lines::why_lines::{EntryKind, GroupPlace, OrderWord, TagPlace, WhyLine, WhyLines};
use boot_phases::boot_phases::Phase;
use boot_phases::group_order::{GroupOrder, Orders, rank};
use boot_phases::service_entries::Entry;
use nt_bytes::Units;
use nt_names::name_places::NamePlaces;
use std::alloc::{AllocError, Global};

/// Whether this Type is that of a driver.
fn is_driver(kind: u32) -> bool
    ensures { result ≡ is_driver kind }
{
    kind & 0x0b != 0
}

/// Whether this Type is that of a service.
fn is_service(kind: u32) -> bool
    ensures { result ≡ is_service kind }
{
    kind & 0x30 != 0 && kind & 0x0b == 0
}

fn kind_of(kind: u32) -> EntryKind
    ensures { result ≡ kind_of kind }
{
    if is_driver(kind) {
        EntryKind::Driver
    } else if is_service(kind) {
        EntryKind::Service
    } else {
        EntryKind::Other
    }
}

/// The line of an entry.
pub fn entry_line(entry: &Entry) -> WhyLine
    ensures { result ≡ entry_line entry.now }
{
    WhyLine::Entry {
        kind: kind_of(entry.kind),
        start: entry.start,
        number: entry.kind,
        control: entry.control,
    }
}

// ---- group and tag

fn group_word(listed: &NamePlaces, group: &[u16]) -> GroupPlace
    ensures { result ≡ group_word listed.now group.now }
{
    let _count = listed.as_slice().len();
    match listed.place_of(group) {
        Some(at) => GroupPlace::Listed(at as u64 + 1),
        None => GroupPlace::Unlisted,
    }
}

fn group_line(alloc: Global, order: &SetOrder, group: Option<&Units>) -> Result<WhyLine, AllocError>
    ensures { IfOk result (λ line. line ≡ group_line order.now (option_copied group.entry)) }
{
    match group {
        Some(group) => Ok(WhyLine::Group {
            place: group_word(&order.listed, group.as_slice()),
            name: group.copy(alloc)?,
        }),
        None => Ok(WhyLine::NoGroup),
    }
}

fn tag_in(tag: u32, order: &GroupOrder) -> TagPlace
    ensures { result ≡ tag_in tag order.now }
{
    let _count = order.tags.len();
    match order.tags.place_of(tag) {
        Some(at) => TagPlace::Listed(at as u64 + 1),
        None => TagPlace::Unlisted,
    }
}

fn tag_at(orders: &Orders, tag: u32, at: usize) -> TagPlace
    ensures { result ≡ option_map_or (tag_in tag) (slice_get orders.now at) Idle }
{
    match orders.as_slice().get(at) {
        Some(order) => tag_in(tag, order),
        None => TagPlace::Idle,
    }
}

/// Of a listed group.
fn tag_of_group(orders: &Orders, tag: u32, group: &[u16]) -> TagPlace
    ensures { result ≡ tag_of_group orders.now tag group.now }
{
    match orders.place_of(group) {
        Some(at) => tag_at(orders, tag, at),
        None => TagPlace::Idle,
    }
}

fn tag_of(orders: &Orders, tag: u32, group: Option<&Units>) -> TagPlace
    ensures { result ≡ option_map_or (tag_of_group orders.now tag) (option_copied group.entry) Idle }
{
    match group {
        Some(group) => tag_of_group(orders, tag, group.as_slice()),
        None => TagPlace::Idle,
    }
}

/// Where tags count.
fn tag_word(order: &SetOrder, group: Option<&Units>, tag: u32) -> TagPlace
    ensures { result ≡ tag_word order.now (option_copied group.entry) tag }
{
    if order.tags_count {
        tag_of(&order.orders, tag, group)
    } else {
        TagPlace::Idle
    }
}

fn tag_line(order: &SetOrder, group: Option<&Units>, tag: Option<u32>) -> WhyLine
    ensures { result ≡ tag_line order.now (option_copied group.entry) tag }
{
    match tag {
        Some(tag) => WhyLine::Tag {
            tag,
            place: tag_word(order, group, tag),
        },
        None => WhyLine::NoTag,
    }
}

// ---- the registry, and the neighbours

fn push_registry(order: &SetOrder, name: &[u16], lines: &mut WhyLines) -> Result<(), AllocError>
    ensures { OnOk result (lines.new ≡ lines.old ++ registry_lines order.now name.now) }
{
    let _count = order.names.as_slice().len();
    match order.names.place_of(name) {
        Some(at) => lines.push(WhyLine::Registry {
            place: at as u64 + 1,
        }),
        None => Ok(()),
    }
}

/// Which of the places of two entries is the first that differs.
fn order_word(order: &SetOrder, a: &Entry, b: &Entry) -> OrderWord
    ensures { result ≡ order_word order.now a.now b.now }
{
    let (group, tag) = rank(&order.orders, a.group.as_ref(), a.tag, order.tags_count);
    let (other_group, other_tag) = rank(&order.orders, b.group.as_ref(), b.tag, order.tags_count);
    if group == other_group {
        if tag == other_tag {
            OrderWord::Registry
        } else {
            OrderWord::Tag
        }
    } else {
        OrderWord::Group
    }
}

fn push_after(
    alloc: Global,
    order: &SetOrder,
    entry: &Entry,
    other: Option<&Entry>,
    lines: &mut WhyLines,
) -> Result<(), AllocError>
    ensures { OnOk result (lines.new ≡ lines.old ++ after_lines order.now entry.now (option_copied other.entry)) }
{
    match other {
        Some(other) => lines.push(WhyLine::After {
            by: order_word(order, entry, other),
            name: other.name.copy(alloc)?,
        }),
        None => Ok(()),
    }
}

fn push_before(
    alloc: Global,
    order: &SetOrder,
    entry: &Entry,
    other: Option<&Entry>,
    lines: &mut WhyLines,
) -> Result<(), AllocError>
    ensures { OnOk result (lines.new ≡ lines.old ++ before_lines order.now entry.now (option_copied other.entry)) }
{
    match other {
        Some(other) => lines.push(WhyLine::Before {
            by: order_word(order, entry, other),
            name: other.name.copy(alloc)?,
        }),
        None => Ok(()),
    }
}

/// The entry before a place.
fn entry_before(plan: &[Entry], place: usize) -> Option<&Entry>
    ensures { option_copied result ≡ entry_before plan.now place }
{
    if place == 0 {
        return None;
    }
    plan.get(place - 1)
}

/// The entry after a place.
fn entry_after(plan: &[Entry], place: usize) -> Option<&Entry>
    requires { place < length plan.now }
    ensures { option_copied result ≡ slice_get plan.now (place + 1) }
{
    let _count = plan.len();
    plan.get(place + 1)
}

/// Puts an entry's place in the plan after the others, and those of its group and its tag.
fn push_front(
    alloc: Global,
    order: &SetOrder,
    phase: Phase,
    plan: &[Entry],
    place: usize,
    entry: &Entry,
    lines: &mut WhyLines,
) -> Result<(), AllocError>
    requires { place < length plan.now }
    ensures { OnOk result (lines.new ≡ lines.old ++ front_lines order.now phase plan.now place entry.now) }
{
    let of = plan.len() as u64;
    let group = group_line(alloc, order, entry.group.as_ref())?;
    let tag = tag_line(order, entry.group.as_ref(), entry.tag);
    lines.push(WhyLine::Place {
        phase,
        place: place as u64 + 1,
        of,
    })?;
    lines.push(group)?;
    lines.push(tag)
}

/// Puts the neighbours of the entry at a place after the others.
fn push_neighbours(
    alloc: Global,
    order: &SetOrder,
    plan: &[Entry],
    place: usize,
    entry: &Entry,
    lines: &mut WhyLines,
) -> Result<(), AllocError>
    requires { place < length plan.now }
    ensures { OnOk result (lines.new ≡ lines.old ++ neighbour_lines order.now plan.now place entry.now) }
{
    push_after(alloc, order, entry, entry_before(plan, place), lines)?;
    push_before(alloc, order, entry, entry_after(plan, place), lines)
}

/// Puts the lines of the entry at a place of a plan after the others: its places, and its neighbours.
pub fn push_place(
    alloc: Global,
    order: &SetOrder,
    phase: Phase,
    plan: &[Entry],
    place: usize,
    entry: &Entry,
    lines: &mut WhyLines,
) -> Result<(), AllocError>
    requires { place < length plan.now }
    ensures { OnOk result (lines.new ≡ lines.old ++ place_lines order.now phase plan.now place entry.now) }
{
    push_front(alloc, order, phase, plan, place, entry, lines)?;
    push_registry(order, entry.name.as_slice(), lines)?;
    push_neighbours(alloc, order, plan, place, entry, lines)
}
