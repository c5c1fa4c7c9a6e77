//! Names that are looked up, and names that are given twice.

ghost use Rattle.std.specs.Prelude.{◌≡◌, ◌↔◌, position, IfOk, IsTrue, Some};
ghost use Rattle.std.specs.List.{list_any};
ghost use Rattle.nt_bytes.specs.Folding.{folds_same};
ghost use Rattle.start_model.specs.Order.{first_names};

use nt_bytes::{Names, Units};
use nt_names::name_places::NamePlaces;
use std::alloc::{AllocError, Global};

/// Whether one of the names is this one.
pub(crate) fn has_name(places: &NamePlaces, name: &Units) -> bool
    ensures { result ≡ list_any (folds_same name.now) places.now }
{
    places.place_of(name.as_slice()).is_some()
}

/// The names without those that fold as one before them. Takes n log n time.
pub(crate) fn first_names(alloc: Global, names: &[Units]) -> Result<Names, AllocError>
    ensures { IfOk result (λ n. n ≡ first_names names.now) }
{
    let places = NamePlaces::new(alloc, Names::from_slice(alloc, names)?)?;
    firsts(alloc, &places)
}

/// Each name where it stands first.
pub(crate) fn firsts(alloc: Global, places: &NamePlaces) -> Result<Names, AllocError>
    ensures { IfOk result (λ n. n ≡ first_names places.now) }
{
    let mut first = Names::new(alloc);
    for (place, name) in places.as_slice().iter().enumerate() {
        if is_first(places, name.as_slice(), place) {
            first.push(name.copy(alloc)?)?;
        }
    }
    Ok(first)
}

/// Whether this is the first place of a name that folds as this one does.
fn is_first(places: &NamePlaces, name: &[u16], place: usize) -> bool
    ensures { IsTrue result ↔ position (folds_same name.now) places.now ≡ Some place }
{
    places.place_of(name) == Some(place)
}
