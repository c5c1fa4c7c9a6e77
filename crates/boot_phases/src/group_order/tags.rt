//! Tags in their order, each found without a scan.

ghost use Rattle.std.specs.Prelude.{◌≡◌, ◌<◌, length, nat_eq, position, IfOk, IfSome};
ghost use Rattle.boot_phases.specs.group_order.FirstPlaces.{HasFirstPlaces};

use std::alloc::{AllocError, Global};
use std::collections::BTreeMap;
use std::marker::Model;

/// Tags, the first one to be started first. Contracts see them as a list of numbers.
#[derive(Drop)]
pub struct Tags {
    items: Vec<u32>,
    places: BTreeMap<u32, usize>,
}

impl Model for Tags {
    ghost use Rattle.std.specs.Prelude.{ℕ, List};
    ghost use Rattle.boot_phases.specs.group_order.FirstPlaces.{HasFirstPlaces};

    ghost Value = { List ℕ };

    ghost view = { λ a. a.items.items };

    ghost invariant = { λ a. HasFirstPlaces a.places a.items.items };
}

impl Tags {
    /// The same tags, each with the place where it stands first.
    pub fn from_vec(alloc: Global, items: Vec<u32>) -> Result<Tags, AllocError>
        ensures { IfOk result (λ t. t ≡ items.items) }
    {
        let places = first_places(alloc, items.as_slice())?;
        Ok(Tags { items, places })
    }

    /// How many tags there are, each counted as often as it is listed.
    pub fn len(&self) -> usize
        ensures { result ≡ length self.now }
    {
        self.items.len()
    }

    /// The place at which a tag stands first. Takes no memory.
    pub fn place_of(&self, tag: u32) -> Option<usize>
        ensures place { result ≡ position (λ x. nat_eq x tag) self.now }
        ensures within { IfSome result (λ at. at < length self.now) }
    {
        self.places.get(&tag).copied()
    }
}

/// Each tag with the place where it stands first.
fn first_places(alloc: Global, tags: &[u32]) -> Result<BTreeMap<u32, usize>, AllocError>
    ensures { IfOk result (λ p. HasFirstPlaces p tags.now) }
{
    let mut places = BTreeMap::new(alloc);
    for (place, tag) in tags.iter().enumerate() {
        if !places.contains_key(tag) {
            places.insert(*tag, place)?;
        }
    }
    Ok(places)
}
