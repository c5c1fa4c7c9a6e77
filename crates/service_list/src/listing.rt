//! The lines on a set.

ghost use Rattle.std.specs.Prelude.{◌≡◌, ◌++◌, count_by, map, IfOk, OnOk};
ghost use Rattle.hive_model.specs.Valid.{HoldsKeys};
ghost use Rattle.service_list.specs.Entries.{entries_of};
ghost use Rattle.service_list.specs.Kinds.{is_listed, is_chosen};
ghost use Rattle.service_list.specs.Sorting.{arranged};
ghost use Rattle.service_list.specs.Listing.{shown_by, no_lines, listed_lines, set_lines, number_lines, service_lines};

use crate::counts::{Counts, counts_of};
use crate::entry::{ServiceEntry, entry_of};
use crate::kinds::{Selection, is_listed, is_shown};
use crate::sorting::arranged;
use crate::turns::Turns;
use nt_bytes::Row;
use nt_names::startup_names::SERVICES;
use reg_tree::Key;
use select_keys::set_of;
use std::alloc::{AllocError, Global};

/// A line on a set.
#[derive(Drop)]
pub enum ServiceLine {
    /// The set isn't there.
    NoSet { number: u32 },
    Set { number: u32 },
    /// The set has no key `Services`.
    NoServices,
    Entry(ServiceEntry),
    Listed(Counts),
    End,
}

/// Lines in the order in which they are printed.
pub type ServiceLines = Row<ServiceLine>;

/// The lines on the set of a number. Each key of the tree must be one that a hive can hold. Takes n log n time in the set's services.
#[tactic(auto, unfolding(crate::specs::Listing::service_lines))]
pub fn services(
    alloc: Global,
    root: &Key,
    number: u32,
    selection: Selection,
) -> Result<ServiceLines, AllocError>
    requires { HoldsKeys root.now }
    ensures lines { IfOk result (λ l. l ≡ service_lines root.now number selection) }
{
    let mut lines = ServiceLines::new(alloc);
    put_number(alloc, root, number, selection, &mut lines)?;
    lines.push(ServiceLine::End)?;
    Ok(lines)
}

/// The same up to the last line.
fn put_number(
    alloc: Global,
    root: &Key,
    number: u32,
    selection: Selection,
    lines: &mut ServiceLines,
) -> Result<(), AllocError>
    requires { HoldsKeys root.now }
    ensures { OnOk result (lines.new ≡ lines.old ++ number_lines root.now number selection) }
{
    match set_of(root, number) {
        Some(set) => put_set(alloc, number, set, selection, lines),
        None => lines.push(ServiceLine::NoSet { number }),
    }
}

fn put_set(
    alloc: Global,
    number: u32,
    set: &Key,
    selection: Selection,
    lines: &mut ServiceLines,
) -> Result<(), AllocError>
    requires { HoldsKeys set.now }
    ensures { OnOk result (lines.new ≡ lines.old ++ set_lines selection number set.now) }
{
    lines.push(ServiceLine::Set { number })?;
    match set.child(&SERVICES) {
        Some(services) => put_listed(alloc, set, services.subkeys(), selection, lines),
        None => put_none(alloc, lines),
    }
}

/// The lines on a set without the key `Services`.
fn put_none(alloc: Global, lines: &mut ServiceLines) -> Result<(), AllocError>
    ensures { OnOk result (lines.new ≡ lines.old ++ no_lines) }
{
    lines.push(ServiceLine::NoServices)?;
    put_shown(Vec::new(alloc), 0, lines)
}

/// The lines on these children of its `Services`.
fn put_listed(
    alloc: Global,
    set: &Key,
    keys: &[Key],
    selection: Selection,
    lines: &mut ServiceLines,
) -> Result<(), AllocError>
    requires { HoldsKeys set.now }
    ensures { OnOk result (lines.new ≡ lines.old ++ listed_lines selection set.now keys.now) }
{
    let turns = Turns::of(alloc, set)?;
    let entries = entries_of(alloc, &turns, selection, keys)?;
    let shown = arranged(entries, selection.sort)?;
    put_shown(shown, listed_count(keys), lines)
}

/// Each entry in its line, and the counts.
fn put_shown(
    entries: Vec<ServiceEntry>,
    of: u64,
    lines: &mut ServiceLines,
) -> Result<(), AllocError>
    ensures { OnOk result (lines.new ≡ lines.old ++ shown_by of entries.items) }
{
    let counts = counts_of(entries.as_slice(), of);
    put_entries(entries, lines)?;
    lines.push(ServiceLine::Listed(counts))
}

fn put_entries(entries: Vec<ServiceEntry>, lines: &mut ServiceLines) -> Result<(), AllocError>
    ensures { OnOk result (lines.new ≡ lines.old ++ map ServiceLine.Entry entries.items) }
{
    for entry in entries {
        lines.push(ServiceLine::Entry(entry))?;
    }
    Ok(())
}

/// What is said of the chosen keys, in their order.
fn entries_of(
    alloc: Global,
    turns: &Turns,
    selection: Selection,
    keys: &[Key],
) -> Result<Vec<ServiceEntry>, AllocError>
    ensures { IfOk result (λ e. e.items ≡ entries_of turns.now selection keys.now) }
{
    let mut entries = Vec::new(alloc);
    for key in keys {
        if is_chosen(key, selection) {
            entries.push(entry_of(alloc, turns, key)?)?;
        }
    }
    Ok(entries)
}

fn is_chosen(key: &Key, selection: Selection) -> bool
    ensures { result ≡ is_chosen selection key.now }
{
    is_listed(key) && is_shown(key, selection)
}

fn listed_count(keys: &[Key]) -> u64
    ensures { result ≡ count_by is_listed keys.now }
{
    let mut count: u64 = 0;
    for key in keys {
        if is_listed(key) {
            count += 1;
        }
    }
    count
}
