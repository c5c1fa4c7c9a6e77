//! The lines of a check.

ghost use Rattle.std.specs.Prelude.{◌≡◌, ◌++◌, ◌∷◌, [], ◌&&◌, ◌==◌, map, Some, None, IfOk, OnOk};
ghost use Rattle.std.specs.List.{list_any, flat_map};
ghost use Rattle.std.specs.Option.{is_some};
ghost use Rattle.hive_model.specs.Valid.{HoldsKeys};
ghost use Rattle.start_model.specs.Entries.{entry_of};
ghost use Rattle.start_model.specs.Sets.{select_numbers_of};
ghost use Rattle.service_check.specs.Check.{line_when, is_imaged, scope_of, list_lines, about, child_lines, services_lines, set_lines, number_lines, found_lines, select_line, failed_line, four_lines, select_lines, key_lines, is_finding, finding_count, check_lines};

use crate::child::{Scope, child_faults, has_image};
use crate::cycles::put_cycles;
use crate::groups::put_groups;
use crate::stage::Stage;
use crate::table::Table;
use answer_lines::check_lines::{CheckLine, CheckLines, Fault, SelectWord};
use boot_phases::group_order::read_orders;
use nt_bytes::Units;
use nt_names::startup_names::{CURRENT_CONTROL_SET, SERVICES, START, TYPE};
use reg_tree::Key;
use select_keys::{SelectNumbers, select_numbers, set_of};
use std::alloc::{AllocError, Global};
use std::marker::Model;

/// The lines of a check, and how many of them tell of something suspicious.
#[derive(Drop)]
pub struct Checked {
    pub lines: CheckLines,
    pub found: u64,
}

/// Checks the set of a number of a hive's tree, or, without one, the hive and the set that the next start takes; with the
/// order of groups and tags where that is asked for. Each key of the tree must be one that a hive can hold.
#[tactic(auto, unfolding(crate::specs::Check::check_lines))]
pub fn check(
    alloc: Global,
    root: &Key,
    asked: Option<u32>,
    in_order: bool,
) -> Result<Checked, AllocError>
    requires { HoldsKeys root.now }
    ensures lines { IfOk result (λ c. c.lines ≡ check_lines root.now asked in_order) }
    ensures found { IfOk result (λ c. c.found ≡ finding_count (found_lines root.now asked in_order)) }
{
    let mut lines = CheckLines::new(alloc);
    put_found(alloc, root, asked, in_order, &mut lines)?;
    let found = finding_count(lines.as_slice());
    lines.push(CheckLine::Found { count: found })?;
    lines.push(CheckLine::End)?;
    Ok(Checked { lines, found })
}

/// How many of the lines tell of something suspicious.
fn finding_count(lines: &[CheckLine]) -> u64
    ensures { result ≡ finding_count lines.now }
{
    lines.iter().filter(|line| is_finding(line)).count() as u64
}

fn is_finding(line: &CheckLine) -> bool
    ensures { result ≡ is_finding line.now }
{
    match line {
        CheckLine::Set { number: _ } | CheckLine::Found { count: _ } | CheckLine::End => false,
        CheckLine::Select { word: _, number: _ }
        | CheckLine::CurrentSetKey
        | CheckLine::NoSet { number: _ }
        | CheckLine::NoServices
        | CheckLine::NoList
        | CheckLine::About { fault: _, name: _ }
        | CheckLine::GroupUnlisted { count: _, group: _ }
        | CheckLine::Cycle { number: _, name: _ } => true,
    }
}

fn put_found(
    alloc: Global,
    root: &Key,
    asked: Option<u32>,
    in_order: bool,
    lines: &mut CheckLines,
) -> Result<(), AllocError>
    requires { HoldsKeys root.now }
    ensures { OnOk result (lines.new ≡ lines.old ++ found_lines root.now asked in_order) }
{
    match asked {
        Some(number) => put_asked(alloc, root, number, in_order, lines),
        None => put_hive(alloc, root, in_order, lines),
    }
}

/// The set of this number alone.
fn put_asked(
    alloc: Global,
    root: &Key,
    number: u32,
    in_order: bool,
    lines: &mut CheckLines,
) -> Result<(), AllocError>
    requires { HoldsKeys root.now }
    ensures { OnOk result (lines.new ≡ lines.old ++ number_lines root.now in_order number (CheckLine.NoSet number ∷ [])) }
{
    match set_of(root, number) {
        Some(set) => put_set(alloc, in_order, number, set, lines),
        None => lines.push(CheckLine::NoSet { number }),
    }
}

/// The hive, and the set that the next start takes.
fn put_hive(
    alloc: Global,
    root: &Key,
    in_order: bool,
    lines: &mut CheckLines,
) -> Result<(), AllocError>
    requires { HoldsKeys root.now }
    ensures { OnOk result (lines.new ≡ lines.old ++ found_lines root.now None in_order) }
{
    put_selects(root, lines)?;
    put_key(root, lines)?;
    put_taken(alloc, root, in_order, lines)
}

/// Reports a root key `CurrentControlSet`.
fn put_key(root: &Key, lines: &mut CheckLines) -> Result<(), AllocError>
    ensures { OnOk result (lines.new ≡ lines.old ++ key_lines root.now) }
{
    let is_there = root.has_child(&CURRENT_CONTROL_SET);
    put_when(lines, is_there, CheckLine::CurrentSetKey)
}

/// The set that the next start takes.
fn put_taken(
    alloc: Global,
    root: &Key,
    in_order: bool,
    lines: &mut CheckLines,
) -> Result<(), AllocError>
    requires { HoldsKeys root.now }
    ensures { OnOk result (lines.new ≡ lines.old ++ number_lines root.now in_order (select_numbers_of root.now).default []) }
{
    put_default(alloc, root, select_numbers(root).default, in_order, lines)
}

/// The set of this number, where it is there.
fn put_default(
    alloc: Global,
    root: &Key,
    number: u32,
    in_order: bool,
    lines: &mut CheckLines,
) -> Result<(), AllocError>
    requires { HoldsKeys root.now }
    ensures { OnOk result (lines.new ≡ lines.old ++ number_lines root.now in_order number []) }
{
    match set_of(root, number) {
        Some(set) => put_set(alloc, in_order, number, set, lines),
        None => Ok(()),
    }
}

/// Appends a line where it is found.
fn put_when(lines: &mut CheckLines, found: bool, line: CheckLine) -> Result<(), AllocError>
    ensures { OnOk result (lines.new ≡ lines.old ++ line_when found line) }
{
    if found {
        lines.push(line)?;
    }
    Ok(())
}

// ---- Select

fn put_selects(root: &Key, lines: &mut CheckLines) -> Result<(), AllocError>
    requires { HoldsKeys root.now }
    ensures { OnOk result (lines.new ≡ lines.old ++ select_lines root.now) }
{
    put_numbers(root, select_numbers(root), lines)
}

fn put_numbers(root: &Key, numbers: SelectNumbers, lines: &mut CheckLines) -> Result<(), AllocError>
    requires { HoldsKeys root.now }
    ensures { OnOk result (lines.new ≡ lines.old ++ four_lines root.now numbers.current numbers.default numbers.failed numbers.good) }
{
    put_four(
        root,
        numbers.current,
        numbers.default,
        numbers.failed,
        numbers.good,
        lines,
    )
}

/// The numbers Current, Default, Failed and LastKnownGood.
fn put_four(
    root: &Key,
    current: u32,
    default: u32,
    failed: u32,
    good: u32,
    lines: &mut CheckLines,
) -> Result<(), AllocError>
    requires { HoldsKeys root.now }
    ensures { OnOk result (lines.new ≡ lines.old ++ four_lines root.now current default failed good) }
{
    put_select(root, SelectWord::Current, current, lines)?;
    put_select(root, SelectWord::Default, default, lines)?;
    put_failed(root, failed, lines)?;
    put_select(root, SelectWord::LastKnownGood, good, lines)
}

fn put_failed(root: &Key, number: u32, lines: &mut CheckLines) -> Result<(), AllocError>
    requires { HoldsKeys root.now }
    ensures { OnOk result (lines.new ≡ lines.old ++ failed_line root.now number) }
{
    if number == 0 {
        return Ok(());
    }
    put_select(root, SelectWord::Failed, number, lines)
}

fn put_select(
    root: &Key,
    word: SelectWord,
    number: u32,
    lines: &mut CheckLines,
) -> Result<(), AllocError>
    requires { HoldsKeys root.now }
    ensures { OnOk result (lines.new ≡ lines.old ++ select_line root.now word number) }
{
    let is_none = set_of(root, number).is_none();
    put_when(lines, is_none, CheckLine::Select { word, number })
}

// ---- a set

fn put_set(
    alloc: Global,
    in_order: bool,
    number: u32,
    set: &Key,
    lines: &mut CheckLines,
) -> Result<(), AllocError>
    requires { HoldsKeys set.now }
    ensures { OnOk result (lines.new ≡ lines.old ++ set_lines in_order number set.now) }
{
    lines.push(CheckLine::Set { number })?;
    match set.child(&SERVICES) {
        Some(services) => put_judged(alloc, in_order, set, services.subkeys(), lines),
        None => lines.push(CheckLine::NoServices),
    }
}

fn put_judged(
    alloc: Global,
    in_order: bool,
    set: &Key,
    keys: &[Key],
    lines: &mut CheckLines,
) -> Result<(), AllocError>
    requires { HoldsKeys set.now }
    ensures { OnOk result (lines.new ≡ lines.old ++ services_lines (scope_of in_order set.now keys.now) keys.now) }
{
    let scope = scope(alloc, in_order, set, keys)?;
    put_scoped(alloc, &scope, keys, lines)
}

fn put_scoped(
    alloc: Global,
    scope: &Scope,
    keys: &[Key],
    lines: &mut CheckLines,
) -> Result<(), AllocError>
    ensures { OnOk result (lines.new ≡ lines.old ++ services_lines scope.now keys.now) }
{
    put_list(scope, lines)?;
    put_children(alloc, scope, keys, lines)?;
    put_groups(alloc, scope, lines)?;
    put_cycles(alloc, scope, lines)
}

/// What the children of a set are judged by.
fn scope(alloc: Global, in_order: bool, set: &Key, keys: &[Key]) -> Result<Scope, AllocError>
    requires { HoldsKeys set.now }
    ensures { IfOk result (λ s. s ≡ scope_of in_order set.now keys.now) }
{
    let has_images = has_images(alloc, keys)?;
    let orders = read_orders(alloc, set)?;
    let table = Table::of(alloc, set)?;
    Ok(Scope {
        table,
        orders,
        has_images,
        in_order,
    })
}

/// Whether an entry among the keys has an image.
fn has_images(alloc: Global, keys: &[Key]) -> Result<bool, AllocError>
    ensures { IfOk result (λ b. b ≡ list_any is_imaged keys.now) }
{
    for key in keys {
        if is_imaged(alloc, key)? {
            return Ok(true);
        }
    }
    Ok(false)
}

fn is_imaged(alloc: Global, key: &Key) -> Result<bool, AllocError>
    ensures { IfOk result (λ b. b ≡ is_imaged key.now) }
{
    let has_own = has_image(alloc, key)?;
    Ok(is_entry(key) && has_own)
}

/// Whether the key is an entry.
fn is_entry(key: &Key) -> bool
    ensures { result ≡ is_some (entry_of key.now) }
{
    key.dword(&START).is_some() && key.dword(&TYPE).is_some()
}

fn put_list(scope: &Scope, lines: &mut CheckLines) -> Result<(), AllocError>
    ensures { OnOk result (lines.new ≡ lines.old ++ list_lines scope.now) }
{
    let has_groups = !scope.table.groups(Stage::Automatic).as_slice().is_empty();
    let is_unlisted = scope.orders.as_slice().is_empty();
    put_when(lines, has_groups && is_unlisted, CheckLine::NoList)
}

fn put_children(
    alloc: Global,
    scope: &Scope,
    keys: &[Key],
    lines: &mut CheckLines,
) -> Result<(), AllocError>
    ensures { OnOk result (lines.new ≡ lines.old ++ flat_map (child_lines scope.now) keys.now) }
{
    for key in keys {
        put_child(alloc, scope, key, lines)?;
    }
    Ok(())
}

fn put_child(
    alloc: Global,
    scope: &Scope,
    key: &Key,
    lines: &mut CheckLines,
) -> Result<(), AllocError>
    ensures { OnOk result (lines.new ≡ lines.old ++ child_lines scope.now key.now) }
{
    let faults = child_faults(alloc, scope, key)?;
    put_faults(alloc, key, faults.into_vec(), lines)
}

/// Names each of these faults by the key.
fn put_faults(
    alloc: Global,
    key: &Key,
    faults: Vec<Fault>,
    lines: &mut CheckLines,
) -> Result<(), AllocError>
    ensures { OnOk result (lines.new ≡ lines.old ++ map (about key.now) faults.items) }
{
    for fault in faults {
        let name = Units::from_slice(alloc, key.name())?;
        lines.push(CheckLine::About { fault, name })?;
    }
    Ok(())
}
