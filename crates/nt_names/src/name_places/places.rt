//! The names of a list with their places.

ghost use Rattle.std.specs.Prelude.{◌≡◌, ◌<◌, length, position, IfOk, IfSome};
ghost use Rattle.nt_bytes.specs.Folding.{folds_same};
ghost use Rattle.nt_names.specs.name_places.Places.{places_named};

use crate::name_places::order::{in_order, named_part};
use nt_bytes::{Names, Units};
use std::alloc::{AllocError, Global};
use std::marker::Model;

/// The names of a list, each found with its places. Names that fold to one are one name.
#[derive(Drop)]
pub struct NamePlaces {
    names: Names,
    order: Vec<usize>,
}

impl Model for NamePlaces {
    ghost use Rattle.std.specs.Prelude.{ℕ, List};
    ghost use Rattle.nt_names.specs.name_places.Order.{IsOrderOf};

    ghost Value = { List (List ℕ) };

    ghost view = { λ a. a.names };

    ghost invariant = { λ a. IsOrderOf a.names a.order.items };
}

impl NamePlaces {
    /// The places of these names. Takes n log n time.
    pub fn new(alloc: Global, names: Names) -> Result<NamePlaces, AllocError>
        ensures { IfOk result (λ p. p ≡ names) }
    {
        let order = in_order(alloc, names.as_slice())?;
        Ok(NamePlaces { names, order })
    }

    /// The names, as they are in the list.
    pub fn as_slice(&self) -> &[Units]
        ensures { result.now ≡ self.now }
    {
        self.names.as_slice()
    }

    /// The places of the names that fold as this one does, rising. Takes no memory.
    pub fn places(&self, name: &[u16]) -> &[usize]
        ensures { result.now ≡ places_named name.now self.now }
    {
        named_part(self.names.as_slice(), self.order.as_slice(), name)
    }

    /// The first of these places.
    #[tactic(auto, using(crate::proofs::PlaceLemmas::first_named, crate::proofs::PlaceLemmas::place_within))]
    pub fn place_of(&self, name: &[u16]) -> Option<usize>
        ensures place { result ≡ position (folds_same name.now) self.now }
        ensures within { IfSome result (λ at. at < length self.now) }
    {
        self.places(name).first().copied()
    }
}
