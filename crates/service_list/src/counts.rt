//! How many entries there are of each kind and of each Start.

ghost use Rattle.std.specs.Prelude.{◌≡◌, count_by};
ghost use Rattle.service_list.specs.Counts.{is_driver, is_service, is_other, starts_as, has_beyond, has_none, counts_of};

use crate::entry::ServiceEntry;
use crate::field::Field;
use crate::kinds::{is_driver_kind, is_other_kind, is_service_kind};

/// How many lines there are, of how many listed keys, and of these lines how many of each kind and of each Start.
#[derive(Clone, Copy)]
pub struct Counts {
    pub count: u64,
    /// How many keys are listed, those that the filters leave out among them.
    pub of: u64,
    pub driver: u64,
    pub service: u64,
    pub other: u64,
    /// Start 0.
    pub boot: u64,
    /// Start 1.
    pub system: u64,
    /// Start 2.
    pub automatic: u64,
    /// Start 3.
    pub demand: u64,
    /// Start 4.
    pub disabled: u64,
    /// A greater Start.
    pub beyond: u64,
    /// No Start that is a number.
    pub none: u64,
}

// ---- of one entry

fn is_driver(entry: &ServiceEntry) -> bool
    ensures { result ≡ is_driver entry.now }
{
    is_driver_kind(entry.kind)
}

fn is_service(entry: &ServiceEntry) -> bool
    ensures { result ≡ is_service entry.now }
{
    is_service_kind(entry.kind)
}

fn is_other(entry: &ServiceEntry) -> bool
    ensures { result ≡ is_other entry.now }
{
    is_other_kind(entry.kind)
}

fn starts_as(entry: &ServiceEntry, start: u32) -> bool
    ensures { result ≡ starts_as start entry.now }
{
    match &entry.numbers.start {
        Field::Number(number) => *number == start,
        Field::Missing | Field::Text(_) | Field::Other { kind: _, form: _ } => false,
    }
}

fn has_beyond(entry: &ServiceEntry) -> bool
    ensures { result ≡ has_beyond entry.now }
{
    match &entry.numbers.start {
        Field::Number(number) => 4 < *number,
        Field::Missing | Field::Text(_) | Field::Other { kind: _, form: _ } => false,
    }
}

fn has_none(entry: &ServiceEntry) -> bool
    ensures { result ≡ has_none entry.now }
{
    match &entry.numbers.start {
        Field::Number(_) => false,
        Field::Missing | Field::Text(_) | Field::Other { kind: _, form: _ } => true,
    }
}

// ---- of all

fn drivers(entries: &[ServiceEntry]) -> u64
    ensures { result ≡ count_by is_driver entries.now }
{
    let mut count: u64 = 0;
    for entry in entries {
        if is_driver(entry) {
            count += 1;
        }
    }
    count
}

fn services(entries: &[ServiceEntry]) -> u64
    ensures { result ≡ count_by is_service entries.now }
{
    let mut count: u64 = 0;
    for entry in entries {
        if is_service(entry) {
            count += 1;
        }
    }
    count
}

fn others(entries: &[ServiceEntry]) -> u64
    ensures { result ≡ count_by is_other entries.now }
{
    let mut count: u64 = 0;
    for entry in entries {
        if is_other(entry) {
            count += 1;
        }
    }
    count
}

fn starts(entries: &[ServiceEntry], start: u32) -> u64
    ensures { result ≡ count_by (starts_as start) entries.now }
{
    let mut count: u64 = 0;
    for entry in entries {
        if starts_as(entry, start) {
            count += 1;
        }
    }
    count
}

fn beyonds(entries: &[ServiceEntry]) -> u64
    ensures { result ≡ count_by has_beyond entries.now }
{
    let mut count: u64 = 0;
    for entry in entries {
        if has_beyond(entry) {
            count += 1;
        }
    }
    count
}

fn nones(entries: &[ServiceEntry]) -> u64
    ensures { result ≡ count_by has_none entries.now }
{
    let mut count: u64 = 0;
    for entry in entries {
        if has_none(entry) {
            count += 1;
        }
    }
    count
}

/// The counts of these entries, which are of that many listed keys.
#[tactic(auto, unfolding(crate::specs::Counts::counts_of))]
pub(crate) fn counts_of(entries: &[ServiceEntry], of: u64) -> Counts
    ensures { result ≡ counts_of of entries.now }
{
    Counts {
        count: entries.len() as u64,
        of,
        driver: drivers(entries),
        service: services(entries),
        other: others(entries),
        boot: starts(entries, 0),
        system: starts(entries, 1),
        automatic: starts(entries, 2),
        demand: starts(entries, 3),
        disabled: starts(entries, 4),
        beyond: beyonds(entries),
        none: nones(entries),
    }
}
