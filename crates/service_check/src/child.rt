//! What is wrong with a child of `Services`.

ghost use Rattle.std.specs.Prelude.{◌≡◌, ◌++◌, ◌∷◌, [], position, nat_eq, OnOk, IfOk, if◌then◌else◌};
ghost use Rattle.std.specs.Option.{is_some, option_copied};
ghost use Rattle.service_check.specs.Children.{when, has_value, missing_faults, has_image, number_faults, control_beyond, control_faults, image_faults, listed, tag_fault, tag_faults_of, tag_faults, order_faults, own_faults, bond_faults, entry_faults, service_faults, child_faults};

use crate::malformed::put_malformed;
use crate::needs::put_needs;
use crate::stage::{Stage, Staged, is_driver, is_service, is_taken, is_upto};
use crate::table::Table;
use answer_lines::check_lines::{Fault, Faults};
use boot_phases::group_order::{GroupOrder, Orders};
use boot_phases::service_entries::Entry;
use nt_bytes::Units;
use nt_names::startup_names::{ERROR_CONTROL, IMAGE_PATH, START, TYPE};
use reg_tree::Key;
use std::alloc::{AllocError, Global};
use std::marker::Model;

/// What a child is judged by.
#[derive(Drop)]
pub(crate) struct Scope {
    /// The entries of the set.
    pub(crate) table: Table,
    /// Its listed groups.
    pub(crate) orders: Orders,
    /// Whether an entry has an image.
    pub(crate) has_images: bool,
    /// Whether the order of groups and tags is asked for.
    pub(crate) in_order: bool,
}

impl Model for Scope {
    ghost use Rattle.service_check.specs.Children.{Scope as Judged};

    ghost Value = { Judged };

    ghost view = { λ a. record { rows = a.table; orders = a.orders; has_images = a.has_images; in_order = a.in_order } };
}

/// What is wrong with a child.
pub(crate) fn child_faults(alloc: Global, scope: &Scope, key: &Key) -> Result<Faults, AllocError>
    ensures { IfOk result (λ f. f ≡ child_faults scope.now key.now) }
{
    let mut faults = Faults::new(alloc);
    if has_value(key, &START) || has_value(key, &TYPE) {
        put_service(alloc, scope, key, &mut faults)?;
    }
    Ok(faults)
}

fn put_service(
    alloc: Global,
    scope: &Scope,
    key: &Key,
    faults: &mut Faults,
) -> Result<(), AllocError>
    ensures { OnOk result (faults.new ≡ faults.old ++ service_faults scope.now key.now) }
{
    put_missing(key, faults)?;
    put_malformed(alloc, key, faults)?;
    match scope.table.named(key.name()) {
        Some(row) => put_entry(alloc, scope, key, row, faults),
        None => Ok(()),
    }
}

fn put_entry(
    alloc: Global,
    scope: &Scope,
    key: &Key,
    row: &Staged,
    faults: &mut Faults,
) -> Result<(), AllocError>
    ensures { OnOk result (faults.new ≡ faults.old ++ entry_faults scope.now key.now row.now) }
{
    put_own(alloc, scope.has_images, key, row, faults)?;
    put_bonds(alloc, scope, row, faults)
}

/// Appends what is wrong with the values of an entry.
fn put_own(
    alloc: Global,
    has_images: bool,
    key: &Key,
    row: &Staged,
    faults: &mut Faults,
) -> Result<(), AllocError>
    ensures { OnOk result (faults.new ≡ faults.old ++ own_faults has_images key.now row.now) }
{
    put_numbers(&row.entry, faults)?;
    put_control(key, row, faults)?;
    put_image(alloc, has_images, key, &row.entry, faults)
}

/// Appends what is wrong with its needs and its tag.
fn put_bonds(
    alloc: Global,
    scope: &Scope,
    row: &Staged,
    faults: &mut Faults,
) -> Result<(), AllocError>
    ensures { OnOk result (faults.new ≡ faults.old ++ bond_faults scope.now row.now) }
{
    put_needs(alloc, &scope.table, row, faults)?;
    put_order(alloc, scope.in_order, &scope.orders, row, faults)
}

/// Appends a fault where it is found.
fn put_when(faults: &mut Faults, found: bool, fault: Fault) -> Result<(), AllocError>
    ensures { OnOk result (faults.new ≡ faults.old ++ when found fault) }
{
    if found {
        faults.push(fault)?;
    }
    Ok(())
}

/// Whether the key has a value of this name, whatever its type.
fn has_value(key: &Key, name: &[u16]) -> bool
    ensures { result ≡ has_value name.now key.now }
{
    key.value(name).is_some()
}

fn put_missing(key: &Key, faults: &mut Faults) -> Result<(), AllocError>
    ensures { OnOk result (faults.new ≡ faults.old ++ missing_faults key.now) }
{
    let has_start = has_value(key, &START);
    let has_type = has_value(key, &TYPE);
    put_when(faults, has_type && !has_start, Fault::NoStart)?;
    put_when(faults, has_start && !has_type, Fault::NoType)
}

fn put_numbers(entry: &Entry, faults: &mut Faults) -> Result<(), AllocError>
    ensures { OnOk result (faults.new ≡ faults.old ++ number_faults entry.now) }
{
    let start = entry.start;
    let kind = entry.kind;
    let is_odd = start <= 2 && !(is_driver(kind) || is_service(kind));
    let is_early = start <= 1 && is_service(kind);
    put_when(faults, 4 < start, Fault::Beyond(start))?;
    put_when(faults, is_odd, Fault::Kind(kind))?;
    put_when(faults, is_early, Fault::TooEarly(start))
}

fn put_control(key: &Key, row: &Staged, faults: &mut Faults) -> Result<(), AllocError>
    ensures { OnOk result (faults.new ≡ faults.old ++ control_faults key.now row.now) }
{
    let is_missing = is_taken(row.stage) && !has_value(key, &ERROR_CONTROL);
    put_when(faults, is_missing, Fault::NoControl)?;
    put_beyond(key.dword(&ERROR_CONTROL), faults)
}

fn put_beyond(control: Option<u32>, faults: &mut Faults) -> Result<(), AllocError>
    ensures { OnOk result (faults.new ≡ faults.old ++ control_beyond control) }
{
    match control {
        Some(control) => put_when(faults, 3 < control, Fault::ControlBeyond(control)),
        None => Ok(()),
    }
}

// ---- images

/// Whether the key has an ImagePath that isn't empty.
pub(crate) fn has_image(alloc: Global, key: &Key) -> Result<bool, AllocError>
    ensures { IfOk result (λ b. b ≡ has_image key.now) }
{
    match key.text(alloc, &IMAGE_PATH)? {
        Some(path) => Ok(!path.is_empty()),
        None => Ok(false),
    }
}

fn put_image(
    alloc: Global,
    has_images: bool,
    key: &Key,
    entry: &Entry,
    faults: &mut Faults,
) -> Result<(), AllocError>
    ensures { OnOk result (faults.new ≡ faults.old ++ image_faults has_images key.now entry.now) }
{
    let has_own = has_image(alloc, key)?;
    let wants_one = is_service(entry.kind) && (entry.start == 2 || entry.start == 3);
    put_when(faults, has_images && wants_one && !has_own, Fault::NoImage)
}

// ---- tags

/// Appends what is wrong with the tag, where the order is asked for.
fn put_order(
    alloc: Global,
    in_order: bool,
    orders: &Orders,
    row: &Staged,
    faults: &mut Faults,
) -> Result<(), AllocError>
    ensures { OnOk result (faults.new ≡ faults.old ++ order_faults in_order orders.now row.now) }
{
    if in_order {
        return put_tag(alloc, orders, row, faults);
    }
    Ok(())
}

fn put_tag(
    alloc: Global,
    orders: &Orders,
    row: &Staged,
    faults: &mut Faults,
) -> Result<(), AllocError>
    ensures { OnOk result (faults.new ≡ faults.old ++ tag_faults orders.now row.now) }
{
    if is_upto(Stage::System, row.stage) {
        return put_tag_of(alloc, orders, row.entry.tag, &row.entry.group, faults);
    }
    Ok(())
}

fn put_tag_of(
    alloc: Global,
    orders: &Orders,
    tag: Option<u32>,
    group: &Option<Units>,
    faults: &mut Faults,
) -> Result<(), AllocError>
    ensures { OnOk result (faults.new ≡ faults.old ++ tag_faults_of orders.now tag group.now) }
{
    let Some(tag) = tag else {
        return Ok(());
    };
    match group {
        Some(group) => put_listed(alloc, listed(orders, group), tag, group, faults),
        None => Ok(()),
    }
}

/// The listed group of this name.
fn listed<'a>(orders: &'a Orders, group: &Units) -> Option<&'a GroupOrder>
    ensures { option_copied result ≡ listed orders.now group.now }
{
    let place = orders.place_of(group.as_slice())?;
    orders.as_slice().get(place)
}

fn put_listed(
    alloc: Global,
    order: Option<&GroupOrder>,
    tag: u32,
    group: &Units,
    faults: &mut Faults,
) -> Result<(), AllocError>
    ensures { OnOk result (faults.new ≡ faults.old ++ tag_fault tag group.now (option_copied order.entry)) }
{
    match order {
        Some(order) => put_unlisted(alloc, has_tag(order, tag), tag, group, faults),
        None => Ok(()),
    }
}

fn has_tag(order: &GroupOrder, tag: u32) -> bool
    ensures { result ≡ is_some (position (λ x. nat_eq x tag) order.now.tags) }
{
    order.tags.place_of(tag).is_some()
}

fn put_unlisted(
    alloc: Global,
    has_tag: bool,
    tag: u32,
    group: &Units,
    faults: &mut Faults,
) -> Result<(), AllocError>
    ensures { OnOk result (faults.new ≡ faults.old ++ (if has_tag then [] else Fault.TagUnlisted tag group.now ∷ [])) }
{
    if has_tag {
        return Ok(());
    }
    faults.push(Fault::TagUnlisted {
        tag,
        group: group.copy(alloc)?,
    })
}
