//! The starter: attempts and changes of phase.

ghost use Rattle.std.specs.Prelude.{◌≡◌, ◌≤◌, ◌+◌, ◌++◌, true, false, length, map, IfOk, IfSome, OnOk, Some, None};
ghost use Rattle.hive_model.specs.Valid.{IsValid};
ghost use Rattle.boot_machine.specs.boot_machine.Steps.{is_at_end, on_start};
ghost use Rattle.boot_machine.specs.boot_machine.Views.{event_in};
ghost use Rattle.report_words.specs.declared.words.Verdict.TheVariants.{Stopped};
ghost use Rattle.report_words.specs.declared.line.Line.TheVariants.{Vital as VitalLine};
ghost use Rattle.start_model.specs.Entries.{services_of};
ghost use Rattle.start_model.specs.Machine.{Start, after_phase, attempt_of, refusal_of};
ghost use Rattle.start_model.specs.Events as book;
ghost use Rattle.start_model.specs.Act.{done, say_all, end_with};
ghost use Rattle.start_model.specs.Starter.{good_is_usable, starter_step, phase_step, phase_begun, stepping, enough_steps};
ghost use Rattle.quiet_run.specs.Play.{state_in, watched_in, on_next, set_in, is_under_way, IsSound, IsSoundStart, IsSetNumber};
ghost use Rattle.quiet_run.specs.Watch.{watch, is_new, phase_noted, noted, stepped, steps_of, gone, gone_unless};
ghost use Rattle.boot_phases.specs.boot_phases.Phases.{phase_in};

use crate::ending::{end, end_where_judged};
use crate::last::{Attempt, BegunPhase, LastStart};
use crate::play::Play;
use crate::saving::save_where_due;
use crate::sets::{good_is_usable, set_in};
use crate::words::{phase_number, try_word};
use boot_machine::boot_machine::{Machine, Phase, Verdict};
use boot_script::boot_script::Event;
use nt_bytes::{Names, Units};
use nt_names::startup_names::SERVICES;
use reg_tree::Key;
use select_keys::set_of;
use std::alloc::{AllocError, Global};

// ---- an attempt

/// Attempts the first ready entry.
fn try_next(alloc: Global, play: &mut Play) -> Result<(), AllocError>
    requires sound { IsSound play.old }
    requires ready { is_at_end play.old.machine.start ≡ false }
    ensures watched { OnOk result ((s : Start) → watched_in play.new
        ≡ watch (starter_step s (state_in play.old) done (attempt_of play.old.machine (good_is_usable play.old.live))) play.old.last) }
    ensures sound { OnOk result (IsSound play.new) }
{
    let usable = good_is_usable(&play.live);
    let tried = play.machine.attempt(alloc, usable)?;
    let outcome = try_word(&tried);
    let judgement = tried.judgement;
    let name = tried.name;
    play.last.attempts.push(Attempt { name, outcome })?;
    end_where_judged(judgement, play);
    Ok(())
}

// ---- a change of phase

/// Goes on to the next phase, by the set of this number as it is in the tree.
fn plan_next(
    alloc: Global,
    live: &Key,
    number: u32,
    machine: &mut Machine,
) -> Result<(), AllocError>
    requires valid { IsValid live.now }
    requires number { IsSetNumber number }
    ensures { OnOk result (machine.new ≡ on_start (after_phase (set_in live.now number)) machine.old) }
{
    let set = set_in(alloc, live, number)?;
    match machine.next_phase(alloc, &set) {
        Ok(_) => Ok(()),
        Err(stop) => Err(stop),
    }
}

/// Goes on to the next phase, by the set as it is in the tree.
fn next_phase(alloc: Global, live: &Key, machine: &mut Machine) -> Result<(), AllocError>
    requires valid { IsValid live.now }
    requires sound { IfSome machine.old.start IsSoundStart }
    ensures next { OnOk result (machine.new ≡ on_next live.now machine.old) }
{
    match machine.running() {
        Some((number, _)) => plan_next(alloc, live, number, machine),
        None => Ok(()),
    }
}

/// The next phase begins, and a start that became good by that is saved.
fn go_past(alloc: Global, play: &mut Play) -> Result<(), AllocError>
    requires sound { IsSound play.old }
    ensures watched { OnOk result ((s : Start) → play.old.machine.start ≡ Some s
        → watched_in play.new ≡ watch (phase_begun s (state_in play.old) done) play.old.last) }
    ensures sound { OnOk result (IsSound play.new) }
{
    next_phase(alloc, &play.live, &mut play.machine)?;
    play.last.ended = true;
    save_where_due(alloc, play)
}

/// Puts the names after the others.
fn push_names(alloc: Global, names: &[Units], out: &mut Names) -> Result<(), AllocError>
    ensures { OnOk result (out.new ≡ out.old ++ names.now) }
{
    for name in names {
        out.push(name.copy(alloc)?)?;
    }
    Ok(())
}

/// The boot phase ended without these names, of which there is at least one: the start stops.
fn stop_without(alloc: Global, missing: &[Units], play: &mut Play) -> Result<(), AllocError>
    requires sound { IsSound play.old }
    requires some { 1 ≤ length missing.now }
    ensures watched { OnOk result (watched_in play.new
        ≡ watch (say_all (map VitalLine missing.now) (end_with Stopped false (state_in play.old))) play.old.last) }
    ensures sound { OnOk result (IsSound play.new) }
{
    push_names(alloc, missing, &mut play.last.missing)?;
    play.last.ended = true;
    end(Verdict::Stopped, play);
    Ok(())
}

/// The phase is at its end: the next one begins, or the start stops where a vital name is missing.
fn change_phase(alloc: Global, play: &mut Play) -> Result<(), AllocError>
    requires sound { IsSound play.old }
    ensures watched { OnOk result ((s : Start) → play.old.machine.start ≡ Some s
        → watched_in play.new ≡ watch (phase_step s (state_in play.old) done) play.old.last) }
    ensures sound { OnOk result (IsSound play.new) }
{
    let missing = play.machine.missing(alloc)?;
    if missing.is_empty() {
        return go_past(alloc, play);
    }
    stop_without(alloc, missing.as_slice(), play)
}

// ---- sets that phases read

/// Whether the phase is none of those that are noted.
fn is_new(last: &LastStart, phase: Phase) -> bool
    ensures { result ≡ is_new last.now (phase_in phase) }
{
    phase != Phase::Done && last.phases.len() == phase_number(phase)
}

/// The phase on the set of this number is noted, unless it is there.
#[tactic(auto, using(crate::proofs::WordLemmas::phase_again))]
fn note_phase(alloc: Global, phase: Phase, number: u32, play: &mut Play) -> Result<(), AllocError>
    requires sound { IsSound play.old }
    requires number { IsSetNumber number }
    ensures last { OnOk result (play.new.last ≡ phase_noted (state_in play.old) (phase_in phase) number play.old.last) }
    ensures state { state_in play.new ≡ state_in play.old }
    ensures sound { OnOk result (IsSound play.new) }
{
    if !is_new(&play.last, phase) {
        return Ok(());
    }
    let set = set_in(alloc, &play.live, number)?;
    let from = play.last.attempts.len();
    play.last.phases.push(BegunPhase { phase, set, from })?;
    play.last.ended = false;
    Ok(())
}

/// The phase of the start that runs is noted, unless it is there.
pub(crate) fn note(alloc: Global, play: &mut Play) -> Result<(), AllocError>
    requires sound { IsSound play.old }
    ensures watched { OnOk result (watched_in play.new ≡ noted (watched_in play.old)) }
    ensures sound { OnOk result (IsSound play.new) }
{
    let phase = play.machine.phase();
    match play.machine.running() {
        Some((number, _)) => note_phase(alloc, phase, number, play),
        None => Ok(()),
    }
}

// ---- steps

/// Whether a start runs whose phases are not over.
fn is_under_way(machine: &Machine) -> bool
    ensures { result ≡ is_under_way machine.now.start }
{
    machine.phase() != Phase::Done
}

/// One step of the starter. A start must run whose phases are not over.
fn step_once(alloc: Global, play: &mut Play) -> Result<(), AllocError>
    requires sound { IsSound play.old }
    requires under_way { is_under_way play.old.machine.start ≡ true }
    ensures watched { OnOk result (watched_in play.new ≡ watch (stepping play.old.machine.start (state_in play.old) done) play.old.last) }
    ensures sound { OnOk result (IsSound play.new) }
{
    if play.machine.at_phase_end() {
        return change_phase(alloc, play);
    }
    try_next(alloc, play)
}

/// The same, and a phase that begins by it is noted.
fn step(alloc: Global, play: &mut Play) -> Result<(), AllocError>
    requires sound { IsSound play.old }
    requires under_way { is_under_way play.old.machine.start ≡ true }
    ensures watched { OnOk result (watched_in play.new ≡ stepped (watched_in play.old)) }
    ensures sound { OnOk result (IsSound play.new) }
{
    step_once(alloc, play)?;
    note(alloc, play)
}

/// At most that many steps of the starter, while a start is under way.
fn take_steps(alloc: Global, most: u128, play: &mut Play) -> Result<(), AllocError>
    requires sound { IsSound play.old }
    ensures watched { OnOk result (watched_in play.new ≡ steps_of most (watched_in play.old)) }
    ensures sound { OnOk result (IsSound play.new) }
{
    let mut left = most;
    'steps: while left != 0 && is_under_way(&play.machine) {
        step(alloc, play)?;
        left -= 1;
    }
    Ok(())
}

/// How many keys are below `Services` of the set of this number.
fn count_services(live: &Key, number: u32) -> usize
    requires valid { IsValid live.now }
    requires number { IsSetNumber number }
    ensures { result ≡ length (services_of (set_in live.now number)) }
{
    match set_of(live, number) {
        Some(set) => services_in(set),
        None => 0,
    }
}

/// How many keys are below `Services` of a set.
fn services_in(set: &Key) -> usize
    ensures { result ≡ length (services_of set.now) }
{
    match set.child(&SERVICES) {
        Some(services) => services.subkeys().len(),
        None => 0,
    }
}

/// That many steps as are enough for all that the start can still do.
fn enough(alloc: Global, play: &Play) -> Result<u128, AllocError>
    requires sound { IsSound play.now }
    ensures { IfOk result (λ n. n ≡ enough_steps play.now.machine.start (state_in play.now)) }
{
    let unmet = play.machine.unmet(alloc)?;
    match play.machine.running() {
        Some((number, _)) => Ok(
            unmet.len() as u128 + count_services(&play.live, number) as u128 + 3,
        ),
        None => Ok(0),
    }
}

/// All steps of the starter that there can be.
fn go_on(alloc: Global, play: &mut Play) -> Result<(), AllocError>
    requires sound { IsSound play.old }
    ensures watched { OnOk result (watched_in play.new ≡ steps_of (enough_steps play.old.machine.start (state_in play.old)) (watched_in play.old)) }
    ensures sound { OnOk result (IsSound play.new) }
{
    let most = enough(alloc, play)?;
    take_steps(alloc, most, play)
}

/// That many steps of the starter, or all that there can be.
fn go(alloc: Global, steps: Option<u32>, play: &mut Play) -> Result<(), AllocError>
    requires sound { IsSound play.old }
    ensures watched { OnOk result (watched_in play.new ≡ gone steps (watched_in play.old)) }
    ensures sound { OnOk result (IsSound play.new) }
{
    match steps {
        Some(steps) => take_steps(alloc, u128::from(steps), play),
        None => go_on(alloc, play),
    }
}

/// The same, unless it is refused.
pub(crate) fn turn_go(
    alloc: Global,
    event: &Event,
    steps: Option<u32>,
    play: &mut Play,
) -> Result<(), AllocError>
    requires sound { IsSound play.old }
    requires go { event_in event.now ≡ book.Go steps }
    ensures watched { OnOk result (watched_in play.new ≡ gone_unless steps (watched_in play.old) (refusal_of play.old.machine (book.Go steps))) }
    ensures sound { OnOk result (IsSound play.new) }
{
    match play.machine.accept(event) {
        Ok(()) => go(alloc, steps, play),
        Err(_) => Ok(()),
    }
}
