//! The entries that the automatic phase chooses among.

ghost use Rattle.std.specs.Prelude.{◌≡◌, ◌<◌, ◌^◌, nat_eq, false, [], ◌∷◌, length, slice_get, IfOk, if◌then◌else◌};
ghost use Rattle.std.specs.Option.{option_copied, option_map, option_map_or};
ghost use Rattle.start_model.specs.Entries.{Entry, is_open, need_of, needs_at, places_of};
ghost use Rattle.boot_phases.specs.boot_phases.Untried.{indices_of};

use crate::boot_phases::kind::{is_driver, is_service};
use crate::boot_phases::tried::TriedNames;
use crate::service_entries::{Entry, ServiceTable};
use dependencies::{NeedTable, Places};
use nt_bytes::{Row, Units};
use std::alloc::{AllocError, Global};
use std::marker::Model;
use std::slice::from_ref;

/// Indices, by place.
type Indices = Row<usize>;

/// The untried drivers and services of a table, each found by its name through the table.
#[derive(Drop)]
pub(crate) struct Untried<'a> {
    table: &'a ServiceTable,
    /// Their places in the table, rising.
    places: Places,
    /// For each place of the table, how many of these stand before it.
    indices: Indices,
}

impl<'a> Model for Untried<'a> {
    ghost use Rattle.boot_phases.specs.boot_phases.Untried.{Chosen, AreLedTo};

    ghost Value = { Chosen };

    ghost view = { λ a. record { entries = a.table.now; places = a.places } };

    ghost invariant = { λ a. AreLedTo a.table.now a.places a.indices };
}

impl<'a> Untried<'a> {
    /// Those of a table.
    pub(crate) fn new(
        alloc: Global,
        table: &'a ServiceTable,
        tried: &TriedNames,
    ) -> Result<Untried<'a>, AllocError>
        ensures entries { IfOk result (λ u. u.entries ≡ table.now) }
        ensures places { IfOk result (λ u. u.places ≡ places_of (is_open tried.now) table.now) }
    {
        let mut places = Places::new(alloc);
        let mut indices = Indices::new(alloc);
        for place in 0..table.len() {
            indices.push(places.len())?;
            if is_open_at(table, place as u32, tried) {
                places.push(place as u32)?;
            }
        }
        Ok(Untried {
            table,
            places,
            indices,
        })
    }

    /// Their places in the table, rising.
    pub(crate) fn in_table(&self) -> &[u32]
        ensures places { result.now ≡ self.now.places }
        ensures few { length (needs_at self.now.entries self.now.places) < 2 ^ 32 }
    {
        self.places.as_slice()
    }

    /// The entry at an index among them.
    fn entry(&self, index: usize) -> Option<&Entry>
        ensures { option_map need_of (option_copied result) ≡ slice_get (needs_at self.now.entries self.now.places) index }
    {
        match self.places.get(index) {
            Some(place) => self.table.get(*place),
            None => None,
        }
    }

    /// The index of the one at a place of the table, if one of them stands there.
    fn index_of(&self, place: u32) -> &[usize]
        ensures { result.now ≡ indices_of self.now.places place }
    {
        match self.indices.get(place as usize) {
            Some(index) => self.there(index, place),
            None => &[],
        }
    }

    /// This index, if the one that it leads to is at this place of the table.
    fn there<'b>(&self, index: &'b usize, place: u32) -> &'b [usize]
        ensures { result.now ≡ (if option_map_or (nat_eq place) (slice_get self.now.places index.now) false then index.now ∷ [] else []) }
    {
        if self.stands(*index, place) {
            from_ref(index)
        } else {
            &[]
        }
    }

    fn stands(&self, index: usize, place: u32) -> bool
        ensures { result ≡ option_map_or (nat_eq place) (slice_get self.now.places index) false }
    {
        self.places.get(index).is_some_and(|found| place == *found)
    }

    /// The index of the one at the place that was found, if one of them stands there.
    fn index_found(&self, found: Option<u32>) -> &[usize]
        ensures { result.now ≡ option_map_or (indices_of self.now.places) found [] }
    {
        match found {
            Some(place) => self.index_of(place),
            None => &[],
        }
    }
}

impl<'a> NeedTable for Untried<'a> {
    ghost needs = { λ u. needs_at u.entries u.places };

    fn count(&self) -> usize {
        self.places.len()
    }

    fn start(&self, place: usize) -> u32 {
        self.entry(place).map_or(0, |entry| entry.start)
    }

    fn services(&self, place: usize) -> &[Units] {
        match self.entry(place) {
            Some(entry) => entry.services.as_slice(),
            None => &[],
        }
    }

    fn places(&self, alloc: Global, name: &[u16]) -> Result<&[usize], AllocError> {
        let found = self.table.place_of(alloc, name)?;
        Ok(self.index_found(found))
    }
}

fn is_open_at(table: &ServiceTable, place: u32, tried: &TriedNames) -> bool
    ensures { result ≡ option_map_or (is_open tried.now) (slice_get table.now place) false }
{
    table.get(place).is_some_and(|entry| is_open(entry, tried))
}

fn is_open(entry: &Entry, tried: &TriedNames) -> bool
    ensures { result ≡ is_open tried.now entry.now }
{
    (is_driver(entry.kind) || is_service(entry.kind)) && !tried.has(entry)
}
