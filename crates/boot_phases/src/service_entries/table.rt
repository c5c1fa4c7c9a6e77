//! A table of entries by folded name, in registry order.

ghost use Rattle.std.specs.Prelude.{◌≡◌, ◌+◌, ◌<◌, ◌^◌, ◌++◌, ◌∷◌, [], All, length, IfOk, OnOk, false, slice_get};
ghost use Rattle.std.specs.List.{filter_map};
ghost use Rattle.std.specs.Option.{option_copied, option_map};
ghost use Rattle.nt_bytes.specs.Folding.{folds_same, folded};
ghost use Rattle.hive_model.specs.Valid.{HoldsKeys, KeysDiffer};
ghost use Rattle.boot_phases.specs.service_entries.Named.{IsOnlyPlace, NamesDiffer, place_named};
ghost use Rattle.boot_phases.specs.service_entries.Started.{with_start_at};
ghost use Rattle.start_model.specs.Entries.{entries_of, entry_of, services_of};

use crate::service_entries::entry::{Entries, Entry, read_entry};
use indexmap::IndexMap;
use nt_bytes::Units;
use nt_names::name_places::folded;
use nt_names::startup_names::SERVICES;
use reg_tree::Key;
use std::alloc::{AllocError, Global};
use std::marker::Model;

/// Entries in registry order.
#[derive(Drop)]
pub struct ServiceTable {
    by_name: IndexMap<Vec<u16>, Entry>,
}

impl Model for ServiceTable {
    ghost use Rattle.std.specs.Prelude.{List};
    ghost use Rattle.indexmap.specs.IndexMap.{values};
    ghost use Rattle.start_model.specs.Entries.{Entry as Item};
    ghost use Rattle.boot_phases.specs.service_entries.Keyed.{AreKeyed};

    ghost Value = { List Item };

    ghost view = { λ a. values a.by_name };

    ghost invariant = { λ a. AreKeyed a.by_name.entries };
}

impl ServiceTable {
    fn new(alloc: Global) -> ServiceTable
        ensures { result ≡ [] }
    {
        ServiceTable {
            by_name: IndexMap::new(alloc),
        }
    }

    /// Adds an entry after the others. No other one has its name.
    fn push(&mut self, entry: Entry, alloc: Global) -> Result<(), AllocError>
        requires new { All (λ e. folds_same entry.name e.name ≡ false) self.old }
        requires few { length self.old + 1 < 2 ^ 32 }
        ensures { OnOk result (self.new ≡ self.old ++ entry ∷ []) }
    {
        let key = folded(alloc, entry.name.as_slice())?;
        self.by_name.insert(key.into_vec(), entry)?;
        Ok(())
    }

    /// The entry at a place, or none where that is past the end.
    pub fn get(&self, place: u32) -> Option<&Entry>
        ensures { option_copied result ≡ slice_get self.now place }
    {
        let (_, entry) = self.by_name.get_index(place as usize)?;
        Some(entry)
    }

    /// The place of the entry of this name, whatever the case of its letters, or none where no entry has it.
    pub fn place_of(&self, alloc: Global, name: &[u16]) -> Result<Option<u32>, AllocError>
        ensures { IfOk result (IsOnlyPlace name.now self.now) }
    {
        let key = folded(alloc, name)?;
        Ok(self.place_of_folded(key.as_slice()))
    }

    /// The place of the entry with this folded name, or none where no entry has it.
    fn place_of_folded(&self, folded: &[u16]) -> Option<u32>
        ensures place { result ≡ place_named folded.now self.now }
        ensures differ { NamesDiffer self.now }
    {
        self.by_name.get_index_of(folded).map(|at| at as u32)
    }

    /// Puts another `Start` in the entry at a place, and answers the one that it had; nothing is done where no entry stands there.
    pub fn put_start(&mut self, place: u32, start: u32) -> Option<u32>
        ensures before { result ≡ option_map (λ e. e.start) (slice_get self.old place) }
        ensures after { self.new ≡ with_start_at self.old place start }
    {
        let entry = self.by_name.get_index_mut(place as usize)?;
        let before = entry.start;
        entry.start = start;
        Some(before)
    }

    /// How many entries there are.
    pub fn len(&self) -> usize
        ensures len { result ≡ length self.now }
        ensures few { result < 2 ^ 32 }
    {
        self.by_name.len()
    }

    /// The entries, in their order. No entry is copied.
    pub fn into_entries(self, alloc: Global) -> Result<Entries, AllocError>
        ensures { IfOk result (λ e. e ≡ self) }
    {
        let entries = self.by_name.into_values().collect(alloc)?;
        Ok(Entries::from_vec(entries))
    }
}

/// The entries of a control set.
pub fn entries(alloc: Global, set: &Key) -> Result<ServiceTable, AllocError>
    requires { HoldsKeys set.now }
    ensures { IfOk result (λ t. t ≡ entries_of set.now) }
{
    entries_among(alloc, services(set))
}

/// The keys of the services.
fn services(set: &Key) -> &[Key]
    ensures { result.now ≡ services_of set.now }
{
    set.child(&SERVICES)
        .map_or(&[], |services| services.subkeys())
}

fn entries_among(alloc: Global, keys: &[Key]) -> Result<ServiceTable, AllocError>
    requires differ { KeysDiffer keys.now }
    requires few { length keys.now < 2 ^ 32 }
    ensures { IfOk result (λ t. t ≡ filter_map entry_of keys.now) }
{
    let mut table = ServiceTable::new(alloc);
    for key in keys {
        if let Some(entry) = read_entry(alloc, key)? {
            table.push(entry, alloc)?;
        }
    }
    Ok(table)
}
