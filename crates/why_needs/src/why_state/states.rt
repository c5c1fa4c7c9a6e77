//! Where a name is in a start, and how a need stood at the end of a phase.

ghost use Rattle.std.specs.Prelude.{◌≡◌, ◌<◌, ◌+◌, nat_lt, length, slice_get, Some, None, if◌then◌else◌};
ghost use Rattle.std.specs.Option.{is_some, option_map, option_map_or};
ghost use Rattle.boot_phases.specs.boot_phases.Phases.{phase_in};
ghost use Rattle.boot_machine.specs.boot_machine.Codes.{phase_number};
ghost use Rattle.why_needs.specs.why_state.States.{place_in, first_coming, placed_at, placed_below, attempt_upto, outcome_at, tried_as, waited, placed_state, coming_state, unplaced_state, state_by, placed_of, state_of, fate_as, planned_need, coming_need, untaken_need, unplanned_need, need_of};

use crate::why_state::reason::reason_of;
use crate::why_state::views::{ComingNames, PhaseView, ViewedRun};
use answer_lines::why_lines::{NameState, NeedState, Reason};
use boot_phases::boot_phases::Phase;
use boot_phases::error_control::Judgement;
use nt_names::name_places::NamePlaces;
use report_text::boot_report::TryWord;

// ---- plans that have a name

fn has(names: &NamePlaces, name: &[u16]) -> bool
    ensures { result ≡ is_some (place_in names.now name.now) }
{
    names.place_of(name).is_some()
}

/// The first phase that is to take a name.
pub(crate) fn first_coming(coming: &ComingNames, name: &[u16]) -> Option<Phase>
    ensures { result ≡ first_coming coming.now name.now }
{
    if has(&coming.boot, name) {
        Some(Phase::Boot)
    } else if has(&coming.system, name) {
        Some(Phase::System)
    } else if has(&coming.automatic, name) {
        Some(Phase::Automatic)
    } else {
        None
    }
}

/// The place of a phase, and that of a name in its plan, where it has it.
fn placed_at(run: &ViewedRun, at: usize, name: &[u16]) -> Option<(usize, usize)>
    ensures { result ≡ placed_at run.now.views at name.now }
{
    match run.views.get(at) {
        Some(view) => placed_in(view, at, name),
        None => None,
    }
}

fn placed_in(view: &PhaseView, at: usize, name: &[u16]) -> Option<(usize, usize)>
    ensures { result ≡ option_map (λ p. (at, p)) (place_in view.now.names name.now) }
{
    match view.names.place_of(name) {
        Some(place) => Some((at, place)),
        None => None,
    }
}

/// The same in the last of the first plans that has the name.
pub(crate) fn placed_below(run: &ViewedRun, count: usize, name: &[u16]) -> Option<(usize, usize)>
    ensures { result ≡ placed_below run.now.views count name.now }
{
    let mut left = count;
    'plan: while left != 0 {
        match placed_at(run, left - 1, name) {
            Some(place) => return Some(place),
            None => left -= 1,
        }
    }
    None
}

/// The same up to the phase at a place, of which there are that many.
pub fn placed_upto(run: &ViewedRun, at: usize, name: &[u16]) -> Option<(usize, usize)>
    requires { at < length run.now.views }
    ensures { result ≡ placed_below run.now.views (at + 1) name.now }
{
    let _count = run.views.len();
    placed_below(run, at + 1, name)
}

/// The same in the last plan that has the name.
pub fn placed_of(run: &ViewedRun, name: &[u16]) -> Option<(usize, usize)>
    ensures { result ≡ placed_of run.now name.now }
{
    placed_below(run, run.views.len(), name)
}

// ---- attempts

/// The attempt of a name among the first ones.
pub fn attempt_upto(run: &ViewedRun, n: usize, name: &[u16]) -> Option<usize>
    ensures { result ≡ attempt_upto run.now n name.now }
{
    match run.tried.place_of(name) {
        Some(at) => below(at, n),
        None => None,
    }
}

fn below(at: usize, n: usize) -> Option<usize>
    ensures { result ≡ (if nat_lt at n then Some at else None) }
{
    if at < n { Some(at) } else { None }
}

/// The outcome of an attempt.
fn outcome_at(run: &ViewedRun, at: usize) -> Option<TryWord>
    ensures { result ≡ outcome_at run.now at }
{
    match run.run.start.attempts.get(at) {
        Some(attempt) => Some(attempt.outcome),
        None => None,
    }
}

// ---- what became of a name

fn tried_as(number: u64, outcome: TryWord) -> NameState
    ensures { result ≡ tried_as number outcome }
{
    match outcome {
        TryWord::Ok => NameState::Started(number),
        TryWord::Ignored => NameState::Failed(number, Judgement::Ignore),
        TryWord::Logged => NameState::Failed(number, Judgement::Log),
        TryWord::FallBack => NameState::Failed(number, Judgement::FallBack),
        TryWord::Stop => NameState::Failed(number, Judgement::Stop),
    }
}

fn waited(view: &PhaseView) -> NameState
    ensures { result ≡ waited view.now }
{
    if view.ended {
        NameState::Unmet
    } else {
        NameState::NotReached(view.phase)
    }
}

/// By an attempt of the phase.
fn attempted_state(run: &ViewedRun, view: &PhaseView, at: usize) -> NameState
    requires { at < length run.now.tried }
    ensures { result ≡ option_map_or (tried_as (at + 1)) (outcome_at run.now at) (waited view.now) }
{
    let _count = run.tried.as_slice().len();
    match outcome_at(run, at) {
        Some(outcome) => tried_as(at as u64 + 1, outcome),
        None => waited(view),
    }
}

/// In its phase the name was attempted, or it waited.
fn placed_state(run: &ViewedRun, view: &PhaseView, name: &[u16]) -> NameState
    ensures { result ≡ placed_state run.now view.now name.now }
{
    match attempt_upto(run, view.end, name) {
        Some(at) => attempted_state(run, view, at),
        None => waited(view),
    }
}

/// How many phases come before this one.
fn phase_number(phase: Phase) -> usize
    ensures { result ≡ phase_number (phase_in phase) }
{
    match phase {
        Phase::Boot => 0,
        Phase::System => 1,
        Phase::Automatic => 2,
        Phase::Done => 3,
    }
}

/// No plan has the name, and this phase would take it.
fn coming_state(run: &ViewedRun, phase: Phase) -> NameState
    ensures { result ≡ coming_state run.now phase }
{
    if phase_number(phase) < run.views.len() {
        NameState::Late
    } else {
        NameState::NotReached(phase)
    }
}

/// No plan has the name.
fn unplaced_state(run: &ViewedRun, name: &[u16]) -> NameState
    ensures { result ≡ unplaced_state run.now name.now }
{
    match first_coming(&run.coming, name) {
        Some(phase) => coming_state(run, phase),
        None => NameState::NotTaken(reason_of(&run.run.set, name)),
    }
}

/// By the place of the phase whose plan has the name.
fn state_at(run: &ViewedRun, at: usize, name: &[u16]) -> NameState
    ensures { result ≡ option_map_or (λ v. placed_state run.now v name.now) (slice_get run.now.views at) (unplaced_state run.now name.now) }
{
    match run.views.get(at) {
        Some(view) => placed_state(run, view, name),
        None => unplaced_state(run, name),
    }
}

/// By the plan that has the name, if one has.
fn state_by(run: &ViewedRun, name: &[u16], place: Option<(usize, usize)>) -> NameState
    ensures { result ≡ state_by run.now name.now place }
{
    match place {
        Some((at, _)) => state_at(run, at, name),
        None => unplaced_state(run, name),
    }
}

/// What became of a name in the start.
pub fn state_of(run: &ViewedRun, name: &[u16]) -> NameState
    ensures { result ≡ state_of run.now name.now }
{
    if run.views.is_empty() {
        return NameState::NoPhase;
    }
    state_by(run, name, placed_of(run, name))
}

// ---- how a need is at the end of a phase

fn fate_as(outcome: TryWord) -> NeedState
    ensures { result ≡ fate_as outcome }
{
    match outcome {
        TryWord::Ok => NeedState::Started,
        TryWord::Ignored => NeedState::Failed,
        TryWord::Logged => NeedState::Failed,
        TryWord::FallBack => NeedState::Failed,
        TryWord::Stop => NeedState::Failed,
    }
}

/// By an attempt.
fn fate_at(run: &ViewedRun, at: usize) -> NeedState
    ensures { result ≡ option_map_or fate_as (outcome_at run.now at) NeedState.Unmet }
{
    match outcome_at(run, at) {
        Some(outcome) => fate_as(outcome),
        None => NeedState::Unmet,
    }
}

/// A plan up to this phase has the name.
fn planned_need(run: &ViewedRun, view: &PhaseView, name: &[u16]) -> NeedState
    ensures { result ≡ planned_need run.now view.now name.now }
{
    match attempt_upto(run, view.end, name) {
        Some(at) => fate_at(run, at),
        None => NeedState::Unmet,
    }
}

/// This phase would take the name.
fn coming_need(view: &PhaseView, phase: Phase) -> NeedState
    ensures { result ≡ coming_need view.now phase }
{
    if phase_number(view.phase) < phase_number(phase) {
        NeedState::Later
    } else {
        NeedState::Late
    }
}

/// Why no phase takes the name of the set that the phase at a place read.
fn reason_by(run: &ViewedRun, at: usize, name: &[u16]) -> Reason
    ensures { NeedState.NotTaken result ≡ untaken_need run.now at name.now }
{
    match run.run.start.phases.get(at) {
        Some(phase) => reason_of(&phase.set, name),
        None => Reason::NoKey,
    }
}

/// No plan up to this phase has the name.
fn unplanned_need(run: &ViewedRun, at: usize, view: &PhaseView, name: &[u16]) -> NeedState
    ensures { result ≡ unplanned_need run.now at view.now name.now }
{
    match first_coming(&view.coming, name) {
        Some(phase) => coming_need(view, phase),
        None => NeedState::NotTaken(reason_by(run, at, name)),
    }
}

/// How a name is at the end of the phase at a place, of which there are that many.
pub fn need_of(run: &ViewedRun, at: usize, view: &PhaseView, name: &[u16]) -> NeedState
    requires { at < length run.now.views }
    ensures { result ≡ need_of run.now at view.now name.now }
{
    match placed_upto(run, at, name) {
        Some(_) => planned_need(run, view, name),
        None => unplanned_need(run, at, view, name),
    }
}
