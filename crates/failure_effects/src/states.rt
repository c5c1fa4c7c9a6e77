//! What the plain start made of an entry.

ghost use Rattle.std.specs.Prelude.{◌≡◌, IfOk, map, position, slice_get};
ghost use Rattle.nt_bytes.specs.Folding.{folds_same};
ghost use Rattle.failure_effects.specs.declared.told.Told.{Told};
ghost use Rattle.std.specs.Option.{option_copied, is_some};
ghost use Rattle.start_model.specs.Entries.{entry_of};
ghost use Rattle.failure_effects.specs.States.{state_by, told_named, state_in, key_named, spelled, has_entry, state_of};

use crate::lines::EntryState;
use crate::told::{Fate, Told};
use nt_bytes::{Names, Units};
use nt_names::name_places::NamePlaces;
use nt_names::startup_names::{SERVICES, START, TYPE};
use reg_tree::Key;
use std::alloc::{AllocError, Global};
use std::marker::Model;

/// What the plain start said, each entry found by its name without a scan. Contracts see what it said.
#[derive(Drop)]
pub(crate) struct States<'a> {
    told: &'a [Told],
    places: NamePlaces,
}

impl<'a> Model for States<'a> {
    ghost use Rattle.std.specs.Prelude.{◌≡◌, List, map};
    ghost use Rattle.failure_effects.specs.declared.told.Told.{Told};

    ghost Value = { List Told };

    ghost view = { λ a. a.told.now };

    ghost invariant = { λ a. a.places ≡ map (λ (t : Told). t.name) a.told.now };
}

impl<'a> States<'a> {
    /// Of what the plain start said. Takes n log n time.
    pub(crate) fn new(alloc: Global, told: &'a [Told]) -> Result<States<'a>, AllocError>
        ensures { IfOk result (λ states. states ≡ told.now) }
    {
        let places = NamePlaces::new(alloc, names_of(alloc, told)?)?;
        Ok(States { told, places })
    }

    /// What is reported of a name.
    fn named(&self, name: &[u16]) -> Option<&Told>
        ensures { option_copied result ≡ told_named self.now name.now }
    {
        match self.place_of(name) {
            Some(at) => self.at(at),
            None => None,
        }
    }

    /// What is reported of the entry at a place.
    fn at(&self, place: usize) -> Option<&Told>
        ensures { option_copied result ≡ slice_get self.now place }
    {
        self.told.get(place)
    }

    /// The first place of a name.
    fn place_of(&self, name: &[u16]) -> Option<usize>
        ensures { result ≡ position (folds_same name.now) (map (λ (t : Told). t.name) self.now) }
    {
        self.places.place_of(name)
    }

    /// What the plain start made of an entry of the set.
    pub(crate) fn state(&self, name: &[u16]) -> EntryState
        ensures { result ≡ state_in self.now name.now }
    {
        match self.named(name) {
            Some(told) => state_by(told.fate),
            None => EntryState::Untaken,
        }
    }
}

fn state_by(fate: Fate) -> EntryState
    ensures { result ≡ state_by fate }
{
    match fate {
        Fate::Started | Fate::Failed(_) => EntryState::Started,
        Fate::Unmet => EntryState::Unmet,
    }
}

fn names_of(alloc: Global, told: &[Told]) -> Result<Names, AllocError>
    ensures { IfOk result (λ names. names ≡ map (λ t. t.name) told.now) }
{
    let mut names = Names::new(alloc);
    for one in told {
        names.push(one.name.copy(alloc)?)?;
    }
    Ok(names)
}

/// The key of the services that has the name.
fn key_named<'a>(set: &'a Key, name: &[u16]) -> Option<&'a Key>
    ensures { option_copied result ≡ key_named set.now name.now }
{
    set.child(&SERVICES)?.child(name)
}

/// The name as the key of the services spells it, else as it is given.
pub(crate) fn spelled(alloc: Global, set: &Key, name: &Units) -> Result<Units, AllocError>
    ensures { IfOk result (λ n. n ≡ spelled set.now name.now) }
{
    match key_named(set, name.as_slice()) {
        Some(key) => Units::from_slice(alloc, key.name()),
        None => name.copy(alloc),
    }
}

fn has_entry(set: &Key, name: &[u16]) -> bool
    ensures { result ≡ has_entry set.now name.now }
{
    match key_named(set, name) {
        Some(key) => is_entry(key),
        None => false,
    }
}

/// Whether a key is an entry: it has the DWORDs Start and Type.
fn is_entry(key: &Key) -> bool
    ensures { result ≡ is_some (entry_of key.now) }
{
    key.dword(&START).is_some() && key.dword(&TYPE).is_some()
}

/// What the plain start made of a name.
pub(crate) fn state_of(set: &Key, states: &States<'_>, name: &[u16]) -> EntryState
    ensures { result ≡ state_of set.now states.now name.now }
{
    if has_entry(set, name) {
        states.state(name)
    } else {
        EntryState::NoEntry
    }
}
