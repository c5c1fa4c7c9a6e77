//! A table of entries that need others, as demand start asks it.

ghost use Rattle.std.specs.Prelude.{◌≡◌, ◌<◌, List, length, IfOk};
ghost use Rattle.nt_names.specs.name_places.Places.{places_named};
ghost use Rattle.start_model.specs.Demand.{Need};
ghost use Rattle.dependencies.specs.Work.{names_of, given_at, start_at};

use crate::need::Need;
use nt_bytes::{Names, Units};
use nt_names::name_places::NamePlaces;
use std::alloc::{AllocError, Global};
use std::marker::Model;

/// Entries in an order, each with its Start and the names that it depends on, and found by its name without a scan.
pub trait NeedTable {
    /// What the entries need, in their order.
    ghost needs: { Self → List Need };

    /// How many entries there are.
    fn count(&self) -> usize
        ensures { result ≡ length (needs self.now) };

    /// The Start value of the entry at a place.
    fn start(&self, place: usize) -> u32
        requires { place < length (needs self.now) }
        ensures { result ≡ start_at (needs self.now) place };

    /// The names in DependOnService of the entry at a place.
    fn services(&self, place: usize) -> &[Units]
        requires { place < length (needs self.now) }
        ensures { result.now ≡ given_at (needs self.now) place };

    /// The places of the entries of this name, rising.
    fn places(&self, alloc: Global, name: &[u16]) -> Result<&[usize], AllocError>
        ensures { IfOk result (λ places. places.now ≡ places_named name.now (names_of (needs self.now))) };
}

/// A list of needs, with the places of their names.
#[derive(Drop)]
pub(crate) struct NeedList<'a> {
    needs: &'a [Need],
    index: NamePlaces,
}

impl<'a> Model for NeedList<'a> {
    ghost use Rattle.std.specs.Prelude.{◌≡◌, List};
    ghost use Rattle.start_model.specs.Demand.{Need as Needed};
    ghost use Rattle.dependencies.specs.Work.{names_of};

    ghost Value = { List Needed };

    ghost view = { λ a. a.needs.now };

    ghost invariant = { λ a. a.index ≡ names_of a.needs.now };
}

impl<'a> NeedList<'a> {
    /// These needs. Sorts their names once.
    pub(crate) fn new(alloc: Global, needs: &'a [Need]) -> Result<NeedList<'a>, AllocError>
        ensures { IfOk result (λ table. table ≡ needs.now) }
    {
        let index = index_of(alloc, needs)?;
        Ok(NeedList { needs, index })
    }
}

impl<'a> NeedTable for NeedList<'a> {
    ghost needs = { λ table. table };

    fn count(&self) -> usize {
        self.needs.len()
    }

    fn start(&self, place: usize) -> u32 {
        start_of(self.needs, place)
    }

    fn services(&self, place: usize) -> &[Units] {
        services_of(self.needs, place)
    }

    fn places(&self, _alloc: Global, name: &[u16]) -> Result<&[usize], AllocError> {
        Ok(self.index.places(name))
    }
}

fn start_of(needs: &[Need], place: usize) -> u32
    requires { place < length needs.now }
    ensures { result ≡ start_at needs.now place }
{
    let need = &needs[place];
    need.start
}

fn services_of(needs: &[Need], place: usize) -> &[Units]
    requires { place < length needs.now }
    ensures { result.now ≡ given_at needs.now place }
{
    let need = &needs[place];
    need.services.as_slice()
}

/// The names of the entries, each found with its places.
fn index_of(alloc: Global, needs: &[Need]) -> Result<NamePlaces, AllocError>
    ensures { IfOk result (λ index. index ≡ names_of needs.now) }
{
    let mut names = Names::new(alloc);
    for need in needs {
        names.push(need.name.copy(alloc)?)?;
    }
    NamePlaces::new(alloc, names)
}
