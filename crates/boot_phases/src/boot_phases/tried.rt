//! The names that were tried before, found without a scan.

ghost use Rattle.std.specs.Prelude.{◌≡◌, IfOk};
ghost use Rattle.start_model.specs.Entries.{was_tried};

use crate::service_entries::Entry;
use nt_bytes::{Names, Units};
use nt_names::name_places::NamePlaces;
use std::alloc::{AllocError, Global};
use std::marker::Model;

/// Names that were tried, whatever the case of their letters. Contracts see their list.
#[derive(Drop)]
pub(crate) struct TriedNames {
    names: NamePlaces,
}

impl Model for TriedNames {
    ghost use Rattle.std.specs.Prelude.{List, ℕ};

    ghost Value = { List (List ℕ) };

    ghost view = { λ a. a.names };
}

impl TriedNames {
    /// These names. Takes n log n time in their number.
    pub(crate) fn new(alloc: Global, names: &[Units]) -> Result<TriedNames, AllocError>
        ensures { IfOk result (λ t. t ≡ names.now) }
    {
        let names = NamePlaces::new(alloc, Names::from_slice(alloc, names)?)?;
        Ok(TriedNames { names })
    }

    /// Whether the entry's name is among those that were tried.
    pub(crate) fn has(&self, entry: &Entry) -> bool
        ensures { result ≡ was_tried self.now entry.now }
    {
        self.names.place_of(entry.name.as_slice()).is_some()
    }
}
