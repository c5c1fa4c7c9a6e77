//! All that an entry leads to, breadth first.

ghost use Rattle.std.specs.Prelude.{◌≡◌, ◌<◌, ◌++◌, nat_eq, not, length, slice_get, Some, IfOk, OnOk};
ghost use Rattle.std.specs.Option.{option_copied, option_to_list};
ghost use Rattle.std.specs.List.{list_any, filter_map, flat_map};
ghost use Rattle.indexmap.specs.IndexSet.{insert_all, insert_key};
ghost use Rattle.why_lacks.specs.why_items.Gone.{same_pair, first_place, group_leads, AreGone};
ghost use Rattle.why_lacks.specs.why_items.Items.{lacks_services, wanted, leads_if, leads, next_by, next_at, next_of, grown, items_of};

use crate::why_items::needs::{NeedsRun, lacks_groups, lacks_services, members_at};
use crate::why_items::vertices::{add, entry_count, number_of, places_of};
use answer_lines::why_lines::NeedState;
use boot_phases::service_entries::Entry;
use indexmap::IndexSet;
use nt_bytes::{Row, Units};
use std::alloc::{AllocError, Global};
use why_needs::why_state::{PhaseView, ViewedRun, need_of, placed_upto};

/// Numbers of entries.
pub type EntryNumbers = Row<usize>;

// ---- where a need leads

fn leads_if(
    run: &ViewedRun,
    state: NeedState,
    place: Option<(usize, usize)>,
) -> Result<Option<usize>, AllocError>
    ensures { IfOk result (λ to. to ≡ leads_if run.now state place) }
{
    match state {
        NeedState::Unmet => match place {
            Some(place) => Ok(Some(number_of(run, place)?)),
            None => Ok(None),
        },
        NeedState::Started => Ok(None),
        NeedState::Failed => Ok(None),
        NeedState::Later => Ok(None),
        NeedState::Late => Ok(None),
        NeedState::NotTaken(_) => Ok(None),
    }
}

/// Where a name leads, at the end of the phase at a place, of which there are that many.
fn leads(
    needs: &NeedsRun,
    at: usize,
    view: &PhaseView,
    name: &[u16],
) -> Result<Option<usize>, AllocError>
    requires { at < length needs.now.run.views }
    ensures { IfOk result (λ to. to ≡ leads needs.now at view.now name.now) }
{
    let state = need_of(&needs.run, at, view, name);
    leads_if(&needs.run, state, placed_upto(&needs.run, at, name))
}

/// Puts where a name leads after the others.
fn push_lead(
    needs: &NeedsRun,
    at: usize,
    view: &PhaseView,
    name: &Units,
    out: &mut EntryNumbers,
) -> Result<(), AllocError>
    requires { at < length needs.now.run.views }
    ensures { OnOk result (out.new ≡ out.old ++ option_to_list (leads needs.now at view.now name.now)) }
{
    match leads(needs, at, view, name.as_slice())? {
        Some(to) => out.push(to),
        None => Ok(()),
    }
}

/// Where the names lead, in their order, at the end of the phase at a place, of which there are that many.
pub fn all_leads(
    alloc: Global,
    needs: &NeedsRun,
    at: usize,
    view: &PhaseView,
    names: &[Units],
) -> Result<EntryNumbers, AllocError>
    requires { at < length needs.now.run.views }
    ensures { IfOk result (λ out. out ≡ filter_map (leads needs.now at view.now) names.now) }
{
    let mut out = EntryNumbers::new(alloc);
    for name in names {
        push_lead(needs, at, view, name, &mut out)?;
    }
    Ok(out)
}

// ---- all that it leads to

/// Puts those after the others that are not there.
fn put_all(numbers: &[usize], found: &mut IndexSet<usize>) -> Result<(), AllocError>
    ensures { OnOk result (found.new.keys ≡ insert_all nat_eq found.old.keys numbers.now) }
{
    let mut rest = numbers;
    'number: loop {
        let [number, more @ ..] = rest else {
            return Ok(());
        };
        found.insert(*number)?;
        rest = more;
    }
}

/// The number at a place of the found.
fn number_at(found: &IndexSet<usize>, at: usize) -> Option<usize>
    ensures { result ≡ slice_get found.now.keys at }
{
    found.get_index(at).copied()
}

/// The first place of a group among those that have members, in the set that the phase at a place read.
pub(crate) fn first_place(needs: &NeedsRun, at: usize, group: &[u16]) -> Option<usize>
    ensures { result ≡ first_place needs.now at group.now }
{
    match needs.members.get(at) {
        Some(members) => members.groups.place_of(group),
        None => None,
    }
}

/// Puts where the members of a group lead after the others.
fn put_members(
    alloc: Global,
    needs: &NeedsRun,
    at: usize,
    view: &PhaseView,
    group: &[u16],
    found: &mut IndexSet<usize>,
) -> Result<(), AllocError>
    requires { at < length needs.now.run.views }
    ensures { OnOk result (found.new.keys ≡ insert_all nat_eq found.old.keys (group_leads needs.now at view.now group.now)) }
{
    let members = members_at(alloc, needs, at, group)?;
    let next = all_leads(alloc, needs, at, view, members.as_slice())?;
    put_all(next.as_slice(), found)
}

/// Notes that the members of a group are gone through in a phase. Whether they were not before.
fn is_new(at: usize, first: usize, gone: &mut IndexSet<(usize, usize)>) -> Result<bool, AllocError>
    ensures new { IfOk result (λ new. new ≡ not (list_any (same_pair (at, first)) gone.old.keys)) }
    ensures keys { OnOk result (gone.new.keys ≡ insert_key same_pair gone.old.keys (at, first)) }
{
    let new = gone.insert((at, first))?;
    Ok(new)
}

/// The same, unless the members of a group were gone through in the phase.
fn put_new(
    alloc: Global,
    needs: &NeedsRun,
    at: usize,
    view: &PhaseView,
    group: &[u16],
    first: usize,
    gone: &mut IndexSet<(usize, usize)>,
    found: &mut IndexSet<usize>,
) -> Result<(), AllocError>
    requires view { slice_get needs.now.run.views at ≡ Some view.now }
    requires first { first_place needs.now at group.now ≡ Some first }
    requires gone { AreGone needs.now gone.old.keys found.old.keys }
    ensures found { OnOk result (found.new.keys ≡ insert_all nat_eq found.old.keys (group_leads needs.now at view.now group.now)) }
    ensures gone { OnOk result (AreGone needs.now gone.new.keys found.new.keys) }
{
    if is_new(at, first, gone)? {
        put_members(alloc, needs, at, view, group, found)?;
    }
    Ok(())
}

/// The same of a group that may have no members.
fn put_group(
    alloc: Global,
    needs: &NeedsRun,
    at: usize,
    view: &PhaseView,
    group: &[u16],
    gone: &mut IndexSet<(usize, usize)>,
    found: &mut IndexSet<usize>,
) -> Result<(), AllocError>
    requires view { slice_get needs.now.run.views at ≡ Some view.now }
    requires gone { AreGone needs.now gone.old.keys found.old.keys }
    ensures found { OnOk result (found.new.keys ≡ insert_all nat_eq found.old.keys (group_leads needs.now at view.now group.now)) }
    ensures gone { OnOk result (AreGone needs.now gone.new.keys found.new.keys) }
{
    match first_place(needs, at, group) {
        Some(first) => put_new(alloc, needs, at, view, group, first, gone, found),
        None => Ok(()),
    }
}

/// The same of each of these groups.
fn put_groups(
    alloc: Global,
    needs: &NeedsRun,
    at: usize,
    view: &PhaseView,
    groups: &[Units],
    gone: &mut IndexSet<(usize, usize)>,
    found: &mut IndexSet<usize>,
) -> Result<(), AllocError>
    requires view { slice_get needs.now.run.views at ≡ Some view.now }
    requires gone { AreGone needs.now gone.old.keys found.old.keys }
    ensures found { OnOk result (found.new.keys ≡ insert_all nat_eq found.old.keys (flat_map (group_leads needs.now at view.now) groups.now)) }
    ensures gone { OnOk result (AreGone needs.now gone.new.keys found.new.keys) }
{
    for group in groups {
        put_group(alloc, needs, at, view, group.as_slice(), gone, found)?;
    }
    Ok(())
}

/// Puts where the services lead after the others that an entry lacked.
fn put_services(
    alloc: Global,
    needs: &NeedsRun,
    at: usize,
    view: &PhaseView,
    entry: &Entry,
    found: &mut IndexSet<usize>,
) -> Result<(), AllocError>
    requires { at < length needs.now.run.views }
    ensures { OnOk result (found.new.keys ≡ insert_all nat_eq found.old.keys (filter_map (leads needs.now at view.now) (lacks_services needs.now view.now entry.now))) }
{
    let names = lacks_services(alloc, needs, view, entry)?;
    let next = all_leads(alloc, needs, at, view, names.as_slice())?;
    put_all(next.as_slice(), found)
}

/// Looks at an entry: what it leads to is found.
fn look_by(
    alloc: Global,
    needs: &NeedsRun,
    at: usize,
    view: &PhaseView,
    entry: &Entry,
    gone: &mut IndexSet<(usize, usize)>,
    found: &mut IndexSet<usize>,
) -> Result<(), AllocError>
    requires view { slice_get needs.now.run.views at ≡ Some view.now }
    requires gone { AreGone needs.now gone.old.keys found.old.keys }
    ensures found { OnOk result (found.new.keys ≡ insert_all nat_eq found.old.keys (filter_map (leads needs.now at view.now) (wanted needs.now at view.now entry.now))) }
    ensures gone { OnOk result (AreGone needs.now gone.new.keys found.new.keys) }
{
    put_services(alloc, needs, at, view, entry, found)?;
    let groups = lacks_groups(alloc, needs, view, entry)?;
    put_groups(alloc, needs, at, view, groups.as_slice(), gone, found)
}

/// The same by its place in a plan.
fn look_in(
    alloc: Global,
    needs: &NeedsRun,
    at: usize,
    view: &PhaseView,
    place: usize,
    gone: &mut IndexSet<(usize, usize)>,
    found: &mut IndexSet<usize>,
) -> Result<(), AllocError>
    requires view { slice_get needs.now.run.views at ≡ Some view.now }
    requires gone { AreGone needs.now gone.old.keys found.old.keys }
    ensures found { OnOk result (found.new.keys ≡ insert_all nat_eq found.old.keys (next_by needs.now at view.now (slice_get view.now.plan place))) }
    ensures gone { OnOk result (AreGone needs.now gone.new.keys found.new.keys) }
{
    match view.plan.get(place) {
        Some(entry) => look_by(alloc, needs, at, view, entry, gone, found),
        None => Ok(()),
    }
}

/// The plan of the phase at a place.
fn view_at(needs: &NeedsRun, at: usize) -> Option<&PhaseView>
    ensures { option_copied result ≡ slice_get needs.now.run.views at }
{
    needs.run.views.get(at)
}

/// The same by the entry's places.
fn look_there(
    alloc: Global,
    needs: &NeedsRun,
    place: (usize, usize),
    gone: &mut IndexSet<(usize, usize)>,
    found: &mut IndexSet<usize>,
) -> Result<(), AllocError>
    requires gone { AreGone needs.now gone.old.keys found.old.keys }
    ensures found { OnOk result (found.new.keys ≡ insert_all nat_eq found.old.keys (next_at needs.now place)) }
    ensures gone { OnOk result (AreGone needs.now gone.new.keys found.new.keys) }
{
    match view_at(needs, place.0) {
        Some(view) => look_in(alloc, needs, place.0, view, place.1, gone, found),
        None => Ok(()),
    }
}

/// The same by the entry's number.
fn look_at(
    alloc: Global,
    needs: &NeedsRun,
    number: usize,
    gone: &mut IndexSet<(usize, usize)>,
    found: &mut IndexSet<usize>,
) -> Result<(), AllocError>
    requires gone { AreGone needs.now gone.old.keys found.old.keys }
    ensures found { OnOk result (found.new.keys ≡ insert_all nat_eq found.old.keys (next_of needs.now number)) }
    ensures gone { OnOk result (AreGone needs.now gone.new.keys found.new.keys) }
{
    match places_of(&needs.run, number) {
        Some(place) => look_there(alloc, needs, place, gone, found),
        None => Ok(()),
    }
}

/// Looks at that many entries more, from the first one of the found on.
fn grow(
    alloc: Global,
    needs: &NeedsRun,
    most: usize,
    gone: &mut IndexSet<(usize, usize)>,
    found: &mut IndexSet<usize>,
) -> Result<(), AllocError>
    requires { AreGone needs.now gone.old.keys found.old.keys }
    ensures { OnOk result (found.new.keys ≡ grown (next_of needs.now) most 0 found.old.keys) }
{
    let mut left = most;
    let mut at = 0;
    'item: while left != 0 {
        match number_at(found, at) {
            Some(number) => look_at(alloc, needs, number, gone, found)?,
            None => return Ok(()),
        }
        let next = add(at, 1)?;
        left -= 1;
        at = next;
    }
    Ok(())
}

/// The numbers in their order.
fn listed(alloc: Global, found: &IndexSet<usize>) -> Result<EntryNumbers, AllocError>
    ensures { IfOk result (λ out. out ≡ found.now.keys) }
{
    let mut out = EntryNumbers::new(alloc);
    for number in found.as_slice() {
        out.push(*number)?;
    }
    Ok(out)
}

/// An entry by its number, and all that it leads to, each once. Takes n log n time in the entries and their needs.
#[tactic(auto, unfolding(crate::specs::why_items::Items::items_of))]
pub fn items(alloc: Global, needs: &NeedsRun, number: usize) -> Result<EntryNumbers, AllocError>
    ensures { IfOk result (λ out. out ≡ items_of needs.now number) }
{
    let most = entry_count(needs.run.views.as_slice())?;
    let mut found = IndexSet::new(alloc);
    let mut gone = IndexSet::new(alloc);
    found.insert(number)?;
    grow(alloc, needs, most, &mut gone, &mut found)?;
    listed(alloc, &found)
}
