//! By which attempt of a start a need was met.

ghost use Rattle.std.specs.Prelude.{◌≡◌, ◌++◌, IfOk, OnOk, slice_get, Some, None, if◌then◌else◌};
ghost use Rattle.std.specs.Option.{option_copied, option_map, option_and_then, option_to_list};
ghost use Rattle.quiet_run.specs.declared.last.Attempt.{Attempt as Tried};
ghost use Rattle.why_needs.specs.why_state.States.{placed_of};
ghost use Rattle.why_needs.specs.why_needs.Met.{is_ok, entry_at, group_of, group_by, group_at, starts_of, service_met, group_met, is_met};

use crate::why_state::{ViewedRun, placed_of};
use boot_phases::service_entries::Entry;
use nt_bytes::{Names, Row, Units};
use nt_names::name_places::NamePlaces;
use quiet_run::Attempt;
use report_text::boot_report::TryWord;
use std::alloc::{AllocError, Global};

/// The attempts that started a member of a group, and these groups, each found without a scan.
#[derive(Drop)]
pub struct GroupStarts {
    /// Attempts, counted from 0.
    pub at: Row<usize>,
    /// The groups, at the same places.
    pub groups: NamePlaces,
}

/// Whether the attempt went well.
fn is_ok(outcome: TryWord) -> bool
    ensures { result ≡ is_ok outcome }
{
    match outcome {
        TryWord::Ok => true,
        TryWord::Ignored => false,
        TryWord::Logged => false,
        TryWord::FallBack => false,
        TryWord::Stop => false,
    }
}

/// The entry at a place of a plan.
fn entry_at(run: &ViewedRun, place: (usize, usize)) -> Option<&Entry>
    ensures { option_copied result ≡ entry_at run.now place }
{
    match run.views.get(place.0) {
        Some(view) => view.plan.get(place.1),
        None => None,
    }
}

/// The entry of a name, in the last plan that has it.
fn entry_of<'a>(run: &'a ViewedRun, name: &[u16]) -> Option<&'a Entry>
    ensures { option_copied result ≡ option_and_then (entry_at run.now) (placed_of run.now name.now) }
{
    match placed_of(run, name) {
        Some(place) => entry_at(run, place),
        None => None,
    }
}

/// The group of the entry of a name.
fn group_of<'a>(run: &'a ViewedRun, name: &[u16]) -> Option<&'a Units>
    ensures { option_copied result ≡ group_of run.now name.now }
{
    match entry_of(run, name) {
        Some(entry) => entry.group.as_ref(),
        None => None,
    }
}

/// The group that an attempt started a member of.
fn group_by<'a>(run: &'a ViewedRun, attempt: &Attempt) -> Option<&'a Units>
    ensures { option_copied result ≡ group_by run.now attempt.now }
{
    if is_ok(attempt.outcome) {
        group_of(run, attempt.name.as_slice())
    } else {
        None
    }
}

/// The group that the attempt of this number started a member of.
fn group_at(run: &ViewedRun, at: usize) -> Option<&Units>
    ensures { option_copied result ≡ group_at run.now at }
{
    match run.run.start.attempts.get(at) {
        Some(attempt) => group_by(run, attempt),
        None => None,
    }
}

/// Puts an attempt after the others, where it started a member of a group.
fn push_start(run: &ViewedRun, at: usize, row: &mut Row<usize>) -> Result<(), AllocError>
    ensures { OnOk result (row.new ≡ row.old ++ option_to_list (option_map (λ group. at) (group_at run.now at))) }
{
    match group_at(run, at) {
        Some(_) => row.push(at),
        None => Ok(()),
    }
}

/// The attempts that started a member of a group.
fn starts_at(alloc: Global, run: &ViewedRun) -> Result<Row<usize>, AllocError>
    ensures { IfOk result (λ at. at ≡ (starts_of run.now).at) }
{
    let mut row = Row::new(alloc);
    for at in 0..run.run.start.attempts.len() {
        push_start(run, at, &mut row)?;
    }
    Ok(row)
}

/// Puts the group after the others that an attempt started a member of.
fn push_group(
    alloc: Global,
    run: &ViewedRun,
    at: usize,
    names: &mut Names,
) -> Result<(), AllocError>
    ensures { OnOk result (names.new ≡ names.old ++ option_to_list (group_at run.now at)) }
{
    match group_at(run, at) {
        Some(group) => names.push(group.copy(alloc)?),
        None => Ok(()),
    }
}

/// The groups of which attempts started a member.
fn started_groups(alloc: Global, run: &ViewedRun) -> Result<Names, AllocError>
    ensures { IfOk result (λ names. names ≡ (starts_of run.now).groups) }
{
    let mut names = Names::new(alloc);
    for at in 0..run.run.start.attempts.len() {
        push_group(alloc, run, at, &mut names)?;
    }
    Ok(names)
}

/// The attempts that started a member of a group, and these groups.
pub fn starts_of(alloc: Global, run: &ViewedRun) -> Result<GroupStarts, AllocError>
    ensures { IfOk result (λ starts. starts ≡ starts_of run.now) }
{
    Ok(GroupStarts {
        at: starts_at(alloc, run)?,
        groups: NamePlaces::new(alloc, started_groups(alloc, run)?)?,
    })
}

/// An attempt, where it went well.
fn where_ok(run: &ViewedRun, at: usize) -> Option<usize>
    ensures { result ≡ option_and_then (λ (a : Tried). if is_ok a.outcome then Some at else None) (slice_get run.now.run.start.attempts at) }
{
    match run.run.start.attempts.get(at) {
        Some(attempt) => if is_ok(attempt.outcome) {
            Some(at)
        } else {
            None
        },
        None => None,
    }
}

/// The attempt at which a name was started.
pub fn service_met(run: &ViewedRun, name: &[u16]) -> Option<usize>
    ensures { result ≡ service_met run.now name.now }
{
    match run.tried.place_of(name) {
        Some(at) => where_ok(run, at),
        None => None,
    }
}

/// The attempt at which the first member of a group was started.
pub fn group_met(starts: &GroupStarts, group: &[u16]) -> Option<usize>
    ensures { result ≡ group_met starts.now group.now }
{
    match starts.groups.place_of(group) {
        Some(at) => starts.at.get(at).copied(),
        None => None,
    }
}

/// Whether it is among the first attempts.
pub(crate) fn is_met(n: usize, met: Option<usize>) -> bool
    ensures { result ≡ is_met n met }
{
    match met {
        Some(at) => at < n,
        None => false,
    }
}
