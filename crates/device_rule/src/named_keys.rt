//! Keys of a list, found by name without a scan.

ghost use Rattle.std.specs.Prelude.{◌≡◌, find, position, slice_get, option_and_then, IfOk};
ghost use Rattle.nt_bytes.specs.Folding.{folds_same};
ghost use Rattle.std.specs.Option.{option_copied};
ghost use Rattle.hive_model.specs.Tree.{is_named};
ghost use Rattle.device_rule.specs.Values.{key_names};

use nt_bytes::{Names, Units};
use nt_names::name_places::NamePlaces;
use reg_tree::Key;
use std::alloc::{AllocError, Global};
use std::marker::Model;

/// Keys in the order of the registry. Contracts see their list.
#[derive(Drop)]
pub struct NamedKeys {
    keys: Vec<Key>,
    places: NamePlaces,
}

impl Model for NamedKeys {
    ghost use Rattle.std.specs.Prelude.{◌≡◌, List};
    ghost use Rattle.hive_model.specs.Codes.{coded_trees};
    ghost use Rattle.hive_model.specs.Tree.{Tree};
    ghost use Rattle.device_rule.specs.Values.{key_names};

    ghost Value = { List Tree };

    ghost coded = { coded_trees };

    ghost view = { λ a. a.keys.items };

    ghost invariant = { λ a. a.places ≡ key_names a.keys.items };
}

impl NamedKeys {
    /// These keys. Takes n log n time.
    pub(crate) fn new(alloc: Global, keys: Vec<Key>) -> Result<NamedKeys, AllocError>
        ensures { IfOk result (λ k. k ≡ keys.items) }
    {
        let places = NamePlaces::new(alloc, names_in(alloc, keys.as_slice())?)?;
        Ok(NamedKeys { keys, places })
    }

    /// The keys.
    pub(crate) fn as_slice(&self) -> &[Key]
        ensures { result.now ≡ self.now }
    {
        self.keys.as_slice()
    }

    /// The first key of this name.
    pub(crate) fn find(&self, name: &[u16]) -> Option<&Key>
        ensures { option_copied result ≡ find (is_named name.now) self.now }
    {
        self.at_place(name)
    }

    /// The key at the first place of the name among the names.
    fn at_place(&self, name: &[u16]) -> Option<&Key>
        ensures { option_copied result ≡ option_and_then (slice_get self.now) (position (folds_same name.now) (key_names self.now)) }
    {
        let place = self.places.place_of(name)?;
        self.keys.as_slice().get(place)
    }
}

/// The names of the keys.
fn names_in(alloc: Global, keys: &[Key]) -> Result<Names, AllocError>
    ensures { IfOk result (λ n. n ≡ key_names keys.now) }
{
    let mut names = Names::new(alloc);
    for key in keys {
        names.push(Units::from_slice(alloc, key.name())?)?;
    }
    Ok(names)
}
