//! Lists of entries: copies, parts, names and labels.

ghost use Rattle.std.specs.Prelude.{◌≡◌, ◌++◌, not, length, map, filter, reverse, slice_get, IfOk, OnOk};
ghost use Rattle.std.specs.List.{filter_map, items_where_true, range_with_len};
ghost use Rattle.nt_bytes.specs.Folding.{folded, folds_same};
ghost use Rattle.dependencies.specs.Work.{names_of};
ghost use Rattle.service_control.specs.State.{labels_of};

use crate::turns::few;
use dependencies::{Need, Needs, Places, Started, folded_group};
use nt_bytes::{Names, Units, same_folded};
use nt_names::name_places::folded;
use std::alloc::{AllocError, Global};

/// The same entry in memory of its own.
pub(crate) fn copied(alloc: Global, need: &Need) -> Result<Need, AllocError>
    ensures { IfOk result (λ n. n ≡ need.now) }
{
    Ok(Need {
        name: need.name.copy(alloc)?,
        start: need.start,
        group: copied_group(alloc, &need.group)?,
        services: need.services.copy(alloc)?,
        groups: need.groups.copy(alloc)?,
    })
}

fn copied_group(alloc: Global, group: &Option<Units>) -> Result<Option<Units>, AllocError>
    ensures { IfOk result (λ g. g ≡ group.now) }
{
    match group {
        Some(name) => Ok(Some(name.copy(alloc)?)),
        None => Ok(None),
    }
}

/// Puts copies of these entries after the others. After lack of memory some of them may stand there.
pub(crate) fn append(alloc: Global, needs: &mut Needs, more: &[Need]) -> Result<(), AllocError>
    ensures { OnOk result (needs.new ≡ needs.old ++ more.now) }
{
    for need in more {
        needs.push(copied(alloc, need)?)?;
    }
    Ok(())
}

/// The same entries in memory of their own.
pub(crate) fn copy_of(alloc: Global, needs: &[Need]) -> Result<Needs, AllocError>
    ensures { IfOk result (λ n. n ≡ needs.now) }
{
    let mut made = Needs::new(alloc);
    append(alloc, &mut made, needs)?;
    Ok(made)
}

/// The entries at these places.
pub(crate) fn picked(alloc: Global, needs: &[Need], places: &[u32]) -> Result<Needs, AllocError>
    ensures { IfOk result (λ n. n ≡ filter_map (slice_get needs.now) places.now) }
{
    let mut made = Needs::new(alloc);
    for place in places {
        if let Some(need) = copy_at(alloc, needs, *place)? {
            made.push(need)?;
        }
    }
    Ok(made)
}

fn copy_at(alloc: Global, needs: &[Need], place: u32) -> Result<Option<Need>, AllocError>
    ensures { IfOk result (λ n. n ≡ slice_get needs.now place) }
{
    match needs.get(place as usize) {
        Some(need) => Ok(Some(copied(alloc, need)?)),
        None => Ok(None),
    }
}

/// The entries whose flag is true.
pub(crate) fn chosen(alloc: Global, needs: &[Need], flags: &[bool]) -> Result<Needs, AllocError>
    ensures { IfOk result (λ n. n ≡ items_where_true flags.now needs.now) }
{
    let places = places_of(alloc, flags)?;
    picked(alloc, needs, places.as_slice())
}

/// The places at which a flag is true, rising.
fn places_of(alloc: Global, flags: &[bool]) -> Result<Places, AllocError>
    ensures { IfOk result (λ places. places ≡ items_where_true flags.now (range_with_len 0 (length flags.now))) }
{
    few(flags.len())?;
    let mut places = Places::new(alloc);
    for place in 0..flags.len() {
        if flags[place] {
            places.push(place as u32)?;
        }
    }
    Ok(places)
}

/// Each flag the other way round.
pub(crate) fn turned(alloc: Global, flags: &[bool]) -> Result<Vec<bool>, AllocError>
    ensures { IfOk result (λ f. f.items ≡ map not flags.now) }
{
    flags.iter().map(|flag| !*flag).collect(alloc)
}

/// The entries of other names.
pub(crate) fn without(alloc: Global, needs: &[Need], name: &[u16]) -> Result<Needs, AllocError>
    ensures { IfOk result (λ n. n ≡ filter (λ n. not (folds_same name.now n.name)) needs.now) }
{
    let mut made = Needs::new(alloc);
    for need in needs {
        if !same_folded(name, need.name.as_slice()) {
            made.push(copied(alloc, need)?)?;
        }
    }
    Ok(made)
}

/// The names of the entries.
pub(crate) fn names(alloc: Global, needs: &[Need]) -> Result<Names, AllocError>
    ensures { IfOk result (λ n. n ≡ names_of needs.now) }
{
    let mut names = Names::new(alloc);
    for need in needs {
        names.push(need.name.copy(alloc)?)?;
    }
    Ok(names)
}

/// The names of the entries, the last one first.
pub(crate) fn names_back(alloc: Global, needs: &[Need]) -> Result<Names, AllocError>
    ensures { IfOk result (λ n. n ≡ names_of (reverse needs.now)) }
{
    let mut back = copy_of(alloc, needs)?.into_vec();
    back.reverse();
    names(alloc, back.as_slice())
}

/// Who was started, where these were, in sequence.
pub(crate) fn started(alloc: Global, needs: &[Need]) -> Result<Started, AllocError>
    ensures { IfOk result (λ s. s ≡ labels_of needs.now) }
{
    let mut started = Started::new(alloc);
    for need in needs {
        let name = folded(alloc, need.name.as_slice())?;
        let group = folded_group(alloc, &need.group)?;
        started.push(alloc, name, group)?;
    }
    Ok(started)
}
