//! Which entries of Start 3 the automatic phase takes.

ghost use Rattle.std.specs.Prelude.{◌≡◌, ℕ, ◌^◌, ◌<◌, ◌++◌, Bool, true, List, All, filter, length, IfOk, OnOk};
ghost use Rattle.std.specs.List.{flat_map};
ghost use Rattle.start_model.specs.Demand.{Need, IsClosed, is_taken, automatic_of, starts_at, member};
ghost use Rattle.dependencies.specs.Work.{IsLeast, given_at, demanded, firsts_of, rows_of};

use crate::need::{Needs, Places};
use crate::table::{NeedList, NeedTable};
use least_set::{Edges, least_set};
use nt_bytes::Row;
use std::alloc::{AllocError, Global};

/// The places of the entries of Start 2 and of those that they pull in, in rising order. The table has
/// the drivers and services of a set that were not tried, in the order of the registry. No name of it is copied.
pub fn automatic_in<T: NeedTable>(alloc: Global, table: &T) -> Result<Places, AllocError>
    requires { length (T.needs table.now) < 2 ^ 32 }
    ensures places { IfOk result (λ places. places ≡ automatic_of (T.needs table.now)) }
{
    let taken = taken_in(alloc, table)?;
    places_of(alloc, table, taken.as_slice())
}

/// The same places of a list, whose names are copied and sorted for it.
pub fn automatic(alloc: Global, table: &Needs) -> Result<Places, AllocError>
    requires { length table.now < 2 ^ 32 }
    ensures places { IfOk result (λ places. places ≡ automatic_of table.now) }
{
    let table = NeedList::new(alloc, table.as_slice())?;
    automatic_in(alloc, &table)
}

/// What is taken is the least of the closed sets of places.
pub fn taken_is_the_least_closed_set()
    ensures closed { (table : List Need) → IsClosed table (is_taken table) }
    ensures least { (table : List Need) (set : ℕ → Bool) → IsClosed table set → (q : ℕ) → q < length table → is_taken table q ≡ true → set q ≡ true }
{}

/// The places that are taken, in rising order.
fn places_of<T: NeedTable>(alloc: Global, table: &T, taken: &[bool]) -> Result<Places, AllocError>
    requires few { length (T.needs table.now) < 2 ^ 32 }
    requires least { IsLeast (T.needs table.now) taken.now }
    ensures { IfOk result (λ places. places ≡ automatic_of (T.needs table.now)) }
{
    let mut places = Places::new(alloc);
    for place in 0..table.count() {
        if is_member(taken, place) {
            places.push(place as u32)?;
        }
    }
    Ok(places)
}

/// Whether a place is in the set.
fn is_member(set: &[bool], place: usize) -> bool
    requires { place < length set.now }
    ensures { result ≡ member set.now place }
{
    set[place]
}

/// Whether the entry at a place has this Start value.
fn starts<T: NeedTable>(table: &T, place: usize, start: u32) -> bool
    requires { place < length (T.needs table.now) }
    ensures { result ≡ starts_at (T.needs table.now) start place }
{
    table.start(place) == start
}

/// For each place, whether it is in the least set.
fn taken_in<T: NeedTable>(alloc: Global, table: &T) -> Result<Vec<bool>, AllocError>
    ensures { IfOk result (λ taken. IsLeast (T.needs table.now) taken.items) }
{
    let firsts = firsts_of(alloc, table)?;
    let pulls = Pulls { table };
    let taken = least_set(alloc, &pulls, firsts.as_slice())?;
    Ok(taken)
}

/// The places of the entries of Start 2.
fn firsts_of<T: NeedTable>(alloc: Global, table: &T) -> Result<Row<usize>, AllocError>
    ensures { IfOk result (λ places. places ≡ firsts_of (T.needs table.now)) }
{
    let mut places = Row::new(alloc);
    for place in 0..table.count() {
        if starts(table, place, 2) {
            places.push(place)?;
        }
    }
    Ok(places)
}

/// Leads from each entry of a table to those that it pulls in.
#[derive(Drop)]
struct Pulls<'a, T: NeedTable> {
    table: &'a T,
}

impl<T: NeedTable> Edges for Pulls<'_, T> {
    ghost rows = { λ pulls. rows_of (T.needs pulls.table.now) };

    fn count(&self) -> usize {
        self.table.count()
    }

    fn row(&self, alloc: Global, at: usize) -> Result<Row<usize>, AllocError> {
        pulled_by(alloc, self.table, at)
    }
}

/// The places of the entries that the one at a place pulls in.
fn pulled_by<T: NeedTable>(alloc: Global, table: &T, place: usize) -> Result<Row<usize>, AllocError>
    requires { place < length (T.needs table.now) }
    ensures { IfOk result (λ row. row ≡ flat_map (demanded (T.needs table.now)) (given_at (T.needs table.now) place)) }
{
    let names = table.services(place);
    let mut row = Row::new(alloc);
    for name in names {
        let places = table.places(alloc, name.as_slice())?;
        put_demanded(table, places, &mut row)?;
    }
    Ok(row)
}

/// Puts those of the places whose entries have Start 3 after the others.
fn put_demanded<T: NeedTable>(
    table: &T,
    places: &[usize],
    row: &mut Row<usize>,
) -> Result<(), AllocError>
    requires { All (λ p. p < length (T.needs table.now)) places.now }
    ensures { OnOk result (row.new ≡ row.old ++ filter (starts_at (T.needs table.now) 3) places.now) }
{
    for place in places {
        if starts(table, *place, 3) {
            row.push(*place)?;
        }
    }
    Ok(())
}
