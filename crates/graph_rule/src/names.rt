//! Lists of names.

ghost use Rattle.std.specs.Prelude.{◌≡◌, ◌↔◌, ◌++◌, position, IfOk, OnOk, IsTrue, Some};
ghost use Rattle.nt_bytes.specs.Folding.{folds_same};
ghost use Rattle.start_model.specs.Order.{first_names};
ghost use Rattle.why_needs.specs.why_state.Views.{names_of};

use boot_phases::service_entries::Entry;
use nt_bytes::{Names, Units};
use nt_names::name_places::NamePlaces;
use std::alloc::{AllocError, Global};

/// The names without those that fold as one before them. Takes n log n time.
pub(crate) fn first_names(alloc: Global, names: Names) -> Result<Names, AllocError>
    ensures { IfOk result (λ n. n ≡ first_names names) }
{
    let places = NamePlaces::new(alloc, names)?;
    firsts(alloc, &places)
}

/// Each name where it stands first.
fn firsts(alloc: Global, places: &NamePlaces) -> Result<Names, AllocError>
    ensures { IfOk result (λ n. n ≡ first_names places.now) }
{
    let mut first = Names::new(alloc);
    for (place, name) in places.as_slice().iter().enumerate() {
        if is_first(places, name.as_slice(), place) {
            first.push(name.copy(alloc)?)?;
        }
    }
    Ok(first)
}

/// Whether this is the first place of a name that folds as this one does.
fn is_first(places: &NamePlaces, name: &[u16], place: usize) -> bool
    ensures { IsTrue result ↔ position (folds_same name.now) places.now ≡ Some place }
{
    places.place_of(name) == Some(place)
}

/// Puts the names after the others.
pub(crate) fn push_names(alloc: Global, names: &[Units], out: &mut Names) -> Result<(), AllocError>
    ensures { OnOk result (out.new ≡ out.old ++ names.now) }
{
    for name in names {
        out.push(name.copy(alloc)?)?;
    }
    Ok(())
}

/// The names of the entries.
pub(crate) fn names_of(alloc: Global, entries: &[Entry]) -> Result<Names, AllocError>
    ensures { IfOk result (λ names. names ≡ names_of entries.now) }
{
    let mut names = Names::new(alloc);
    for entry in entries {
        names.push(entry.name.copy(alloc)?)?;
    }
    Ok(names)
}
