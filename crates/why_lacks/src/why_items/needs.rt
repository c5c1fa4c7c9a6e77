//! What an entry of a start lacked.

ghost use Rattle.std.specs.Prelude.{◌≡◌, map, nat_lt, length, slice_get, IfOk};
ghost use Rattle.std.specs.Option.{is_some};
ghost use Rattle.std.specs.List.{list_any, filter_map};
ghost use Rattle.quiet_run.specs.declared.last.BegunPhase.{BegunPhase as Begun};
ghost use Rattle.quiet_run.specs.Play.{AreHeld};
ghost use Rattle.why_needs.specs.why_needs.Members.{members_of};
ghost use Rattle.why_needs.specs.why_needs.Met.{starts_of};
ghost use Rattle.why_lacks.specs.why_items.Items.{needs_run_of, lacks_services, lacks_groups, members_at};

use boot_phases::service_entries::Entry;
use nt_bytes::{Names, Row};
use quiet_run::BegunPhase;
use std::alloc::{AllocError, Global};
use why_needs::why_needs::{
    GroupMembers, GroupStarts, lacking_groups, lacking_services, members_of, starts_of,
};
use why_needs::why_state::{PhaseView, ViewedRun};

/// A run with what its needs are looked up in.
#[derive(Drop)]
pub struct NeedsRun {
    pub run: ViewedRun,
    /// Which attempts started members of groups.
    pub starts: GroupStarts,
    /// The members of groups, in the set that each phase read.
    pub members: Row<GroupMembers>,
}

/// The members of groups, in the set that each phase read.
fn all_members(alloc: Global, phases: &[BegunPhase]) -> Result<Row<GroupMembers>, AllocError>
    requires { AreHeld phases.now }
    ensures { IfOk result (λ members. members ≡ map (λ (p : Begun). members_of p.set) phases.now) }
{
    let mut members = Row::new(alloc);
    for phase in phases {
        members.push(members_of(alloc, &phase.set)?)?;
    }
    Ok(members)
}

/// Which attempts of a run started members of groups, and the members in the set that each phase read.
fn looked(alloc: Global, run: &ViewedRun) -> Result<(GroupStarts, Row<GroupMembers>), AllocError>
    requires { AreHeld run.now.run.start.phases }
    ensures starts { IfOk result (λ r. r.0 ≡ starts_of run.now) }
    ensures members { IfOk result (λ r. r.1 ≡ map (λ (p : Begun). members_of p.set) run.now.run.start.phases) }
{
    let starts = starts_of(alloc, run)?;
    let members = all_members(alloc, run.run.start.phases.as_slice())?;
    Ok((starts, members))
}

/// A run with what its needs are looked up in. A hive must be able to hold the sets of its phases.
#[tactic(auto, unfolding(crate::specs::why_items::Items::needs_run_of))]
pub fn needs_run(alloc: Global, run: ViewedRun) -> Result<NeedsRun, AllocError>
    requires { AreHeld run.run.start.phases }
    ensures { IfOk result (λ needs. needs ≡ needs_run_of run) }
{
    let (starts, members) = looked(alloc, &run)?;
    Ok(NeedsRun {
        run,
        starts,
        members,
    })
}

/// The names that an entry lacked when its phase ended.
pub fn lacks_services(
    alloc: Global,
    needs: &NeedsRun,
    view: &PhaseView,
    entry: &Entry,
) -> Result<Names, AllocError>
    ensures { IfOk result (λ names. names ≡ lacks_services needs.now view.now entry.now) }
{
    lacking_services(alloc, &needs.run, view.end, &entry.services)
}

/// The groups that an entry lacked when its phase ended.
pub fn lacks_groups(
    alloc: Global,
    needs: &NeedsRun,
    view: &PhaseView,
    entry: &Entry,
) -> Result<Names, AllocError>
    ensures { IfOk result (λ names. names ≡ lacks_groups needs.now view.now entry.now) }
{
    lacking_groups(alloc, &needs.starts, view.end, &entry.groups)
}

/// The members of a group, in the set that the phase at a place read.
pub fn members_at(
    alloc: Global,
    needs: &NeedsRun,
    at: usize,
    group: &[u16],
) -> Result<Names, AllocError>
    ensures { IfOk result (λ names. names ≡ members_at needs.now at group.now) }
{
    match needs.members.get(at) {
        Some(members) => members.members(alloc, group),
        None => Ok(Names::new(alloc)),
    }
}

fn is_there(names: &Names, place: usize) -> bool
    ensures { result ≡ is_some (slice_get names.now place) }
{
    names.as_slice().get(place).is_some()
}

fn is_one_there(names: &Names, places: &[usize]) -> bool
    ensures { result ≡ list_any (λ place. is_some (slice_get names.now place)) places.now }
{
    places.iter().any(|place| is_there(names, *place))
}

/// Whether one of these places has a name.
fn has_names(names: &Names, places: &[usize]) -> bool
    ensures { result ≡ nat_lt 0 (length (filter_map (slice_get names.now) places.now)) }
{
    is_one_there(names, places)
}

/// Whether a group has members, in the set that the phase at a place read. No name is copied.
pub(crate) fn has_members(needs: &NeedsRun, at: usize, group: &[u16]) -> bool
    ensures { result ≡ nat_lt 0 (length (members_at needs.now at group.now)) }
{
    match needs.members.get(at) {
        Some(members) => has_names(&members.names, members.groups.places(group)),
        None => false,
    }
}
