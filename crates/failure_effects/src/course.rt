//! A start in its course, attempt by attempt.

ghost use Rattle.std.specs.Prelude.{◌≡◌, ◌<◌, ◌++◌, [], false, map, Some, IfOk, OnOk};
ghost use Rattle.std.specs.Option.{option_copied};
ghost use Rattle.hive_model.specs.Tree.{Tree};
ghost use Rattle.boot_phases.specs.boot_phases.Lists.{lists_of};
ghost use Rattle.start_model.specs.Machine.{off_machine};
ghost use Rattle.boot_machine.specs.boot_machine.Steps.{is_at_end};
ghost use Rattle.failure_effects.specs.Played.{noted, judged, left, begun, next_course, attempts_of, phase_ended, phase_played, played_on, played, waiting_count};
ghost use Rattle.boot_phases.specs.error_control.Judgement.{judgement_in};

use crate::opening::Taken;
use crate::told::{Fate, Told, ToldRow, told_of};
use boot_machine::boot_machine::{Machine, SetLists};
use boot_phases::error_control::Judgement;
use nt_bytes::Units;
use report_text::boot_report::Verdict;
use std::alloc::{AllocError, Global};
use std::mem::replace;

/// What a start has said so far, and the machine that plays it.
#[derive(Drop)]
pub struct Course {
    pub told: ToldRow,
    pub machine: Machine,
}

/// What a start says of the entries that it takes, on a set of which these are the lists. The first attempt of the entry of this
/// name fails, where there is one, and each other attempt goes well.
pub(crate) fn play(
    alloc: Global,
    taken: &Taken,
    lists: &SetLists,
    failing: Option<&Units>,
) -> Result<ToldRow, AllocError>
    ensures { IfOk result (λ told. (set : Tree) → lists.now ≡ lists_of set → told ≡ played taken.now set (option_copied failing.entry)) }
{
    let mut course = Course {
        told: ToldRow::new(alloc),
        machine: Machine::new(alloc),
    };
    play_on(alloc, taken, lists, failing, &mut course)
}

/// The same on a machine that is off, where nothing was printed.
fn play_on(
    alloc: Global,
    taken: &Taken,
    lists: &SetLists,
    failing: Option<&Units>,
    course: &mut Course,
) -> Result<ToldRow, AllocError>
    requires off { course.old.machine ≡ off_machine }
    requires untold { course.old.told ≡ [] }
    ensures { IfOk result (λ told. (set : Tree) → lists.now ≡ lists_of set → told ≡ played taken.now set (option_copied failing.entry)) }
{
    begin(alloc, taken, lists, failing, &mut course.machine)?;
    play_phases(alloc, lists, taken.usable, course)?;
    Ok(replace(&mut course.told, ToldRow::new(alloc)))
}

/// The start in its boot phase, with the failure that is to come.
#[tactic(auto, using(crate::proofs::PlayLemmas::noted_off))]
fn begin(
    alloc: Global,
    taken: &Taken,
    lists: &SetLists,
    failing: Option<&Units>,
    machine: &mut Machine,
) -> Result<(), AllocError>
    requires { machine.old ≡ off_machine }
    ensures { OnOk result ((set : Tree) → lists.now ≡ lists_of set
        → machine.new ≡ (begun taken.now set (option_copied failing.entry)).machine) }
{
    note_failure(alloc, failing, machine)?;
    machine.begin_listed(alloc, lists, taken.number, taken.on_good)
}

/// Notes that the first attempt of this name fails, where there is a name.
fn note_failure(
    alloc: Global,
    failing: Option<&Units>,
    machine: &mut Machine,
) -> Result<(), AllocError>
    ensures { OnOk result (machine.new ≡ noted (option_copied failing.entry) machine.old) }
{
    match failing {
        Some(name) => machine.fail(alloc, name.copy(alloc)?, 1),
        None => Ok(()),
    }
}

/// The three phases.
fn play_phases(
    alloc: Global,
    lists: &SetLists,
    usable: bool,
    course: &mut Course,
) -> Result<(), AllocError>
    ensures { OnOk result ((set : Tree) → lists.now ≡ lists_of set → course.new ≡ played_on usable set course.old) }
{
    play_phase(alloc, lists, usable, course)?;
    play_phase(alloc, lists, usable, course)?;
    play_phase(alloc, lists, usable, course)
}

/// A phase to its end.
fn play_phase(
    alloc: Global,
    lists: &SetLists,
    usable: bool,
    course: &mut Course,
) -> Result<(), AllocError>
    ensures { OnOk result ((set : Tree) → lists.now ≡ lists_of set → course.new ≡ phase_played usable set course.old) }
{
    attempt_all(alloc, usable, course)?;
    end_phase(alloc, lists, course)
}

/// Attempts the entries of a phase, until none that waits is ready or the start is over.
fn attempt_all(alloc: Global, usable: bool, course: &mut Course) -> Result<(), AllocError>
    ensures { OnOk result (course.new ≡ attempts_of (waiting_count course.old.machine) usable course.old) }
{
    'attempt: while !course.machine.at_phase_end() {
        attempt_next(alloc, usable, course)?;
    }
    Ok(())
}

/// Attempts the next entry.
fn attempt_next(alloc: Global, usable: bool, course: &mut Course) -> Result<(), AllocError>
    requires { is_at_end course.old.machine.start ≡ false }
    ensures next { OnOk result (next_course usable course.old ≡ Some course.new) }
    ensures fewer { OnOk result (waiting_count course.new.machine < waiting_count course.old.machine) }
{
    let tried = course.machine.attempt(alloc, usable)?;
    end_where_judged(tried.judgement, &mut course.machine);
    course.told.push(told_of(tried))
}

/// Ends the start where the judgement says so.
fn end_where_judged(judgement: Judgement, machine: &mut Machine)
    ensures { machine.new ≡ judged (judgement_in judgement) machine.old }
{
    match judgement {
        Judgement::Ignore | Judgement::Log => {}
        Judgement::FallBack => machine.end(Verdict::FallBack),
        Judgement::Stop => machine.end(Verdict::Stopped),
    }
}

/// Says what is unmet, and goes on to the next phase.
fn end_phase(alloc: Global, lists: &SetLists, course: &mut Course) -> Result<(), AllocError>
    ensures { OnOk result ((set : Tree) → lists.now ≡ lists_of set → course.new ≡ phase_ended set course.old) }
{
    let unmet = course.machine.next_phase_listed(alloc, lists)?;
    push_unmet(alloc, unmet.as_slice(), &mut course.told)
}

fn push_unmet(alloc: Global, names: &[Units], told: &mut ToldRow) -> Result<(), AllocError>
    ensures { OnOk result (told.new ≡ told.old ++ map left names.now) }
{
    for name in names {
        told.push(Told {
            name: name.copy(alloc)?,
            fate: Fate::Unmet,
        })?;
    }
    Ok(())
}
