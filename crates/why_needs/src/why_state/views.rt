//! What each phase of a start took, and what phases would take after it.

ghost use Rattle.std.specs.Prelude.{◌≡◌, ◌<◌, ◌++◌, length, slice_get, IfOk, OnOk};
ghost use Rattle.std.specs.Option.{option_map, option_to_list};
ghost use Rattle.quiet_run.specs.Play.{AreHeld};
ghost use Rattle.hive_model.specs.Valid.{HoldsKeys};
ghost use Rattle.start_model.specs.Order.{plan_of};
ghost use Rattle.boot_phases.specs.boot_phases.Phases.{phase_in};
ghost use Rattle.why_needs.specs.why_state.Views.{names_of, names_tried, tried_upto, coming_of, end_of, is_ended, view_of, views_of, viewed_of};

use boot_phases::boot_phases::{Phase, plan};
use boot_phases::service_entries::{Entries, Entry};
use nt_bytes::{Names, Row, Units};
use nt_names::name_places::NamePlaces;
use quiet_run::{Attempt, BegunPhase, LastStart, QuietRun};
use reg_tree::Key;
use std::alloc::{AllocError, Global};

/// The names that each phase takes of a set, each found without a scan.
#[derive(Drop)]
pub struct ComingNames {
    pub boot: NamePlaces,
    pub system: NamePlaces,
    pub automatic: NamePlaces,
}

/// A phase that began.
#[derive(Drop)]
pub struct PhaseView {
    pub phase: Phase,
    /// What it took, in its order.
    pub plan: Entries,
    /// The names of the plan.
    pub names: NamePlaces,
    /// What phases take of the set that it read, after its attempts.
    pub coming: ComingNames,
    /// How many attempts the start had made when it ended, or so far.
    pub end: usize,
    /// None of its waiting entries was ready any more.
    pub ended: bool,
}

/// Phases in their order.
pub type PhaseViews = Row<PhaseView>;

/// A run with its phases as they are looked at.
#[derive(Drop)]
pub struct ViewedRun {
    pub run: QuietRun,
    pub views: PhaseViews,
    /// The names of the attempts.
    pub tried: NamePlaces,
    /// What phases would take of the set as it is in the end.
    pub coming: ComingNames,
}

/// The names of the attempts.
fn names_tried(alloc: Global, attempts: &[Attempt]) -> Result<Names, AllocError>
    ensures { IfOk result (λ names. names ≡ names_tried attempts.now) }
{
    let mut names = Names::new(alloc);
    for attempt in attempts {
        names.push(attempt.name.copy(alloc)?)?;
    }
    Ok(names)
}

/// The names of the first attempts.
fn tried_upto(alloc: Global, attempts: &[Attempt], n: usize) -> Result<Names, AllocError>
    ensures { IfOk result (λ names. names ≡ tried_upto attempts.now n) }
{
    let n = n.min(attempts.len());
    names_tried(alloc, &attempts[..n])
}

/// The names of the entries.
fn names_of(alloc: Global, entries: &[Entry]) -> Result<Names, AllocError>
    ensures { IfOk result (λ names. names ≡ names_of entries.now) }
{
    let mut names = Names::new(alloc);
    for entry in entries {
        names.push(entry.name.copy(alloc)?)?;
    }
    Ok(names)
}

/// The names that a phase takes of a set.
fn planned_names(
    alloc: Global,
    set: &Key,
    phase: Phase,
    tried: &[Units],
) -> Result<NamePlaces, AllocError>
    requires { HoldsKeys set.now }
    ensures { IfOk result (λ names. names ≡ names_of (plan_of set.now (phase_in phase) tried.now)) }
{
    let plan = plan(alloc, set, phase, tried)?;
    let names = names_of(alloc, plan.as_slice())?;
    NamePlaces::new(alloc, names)
}

/// The names that each phase takes of a set.
fn coming(alloc: Global, set: &Key, tried: &[Units]) -> Result<ComingNames, AllocError>
    requires { HoldsKeys set.now }
    ensures { IfOk result (λ coming. coming ≡ coming_of set.now tried.now) }
{
    Ok(ComingNames {
        boot: planned_names(alloc, set, Phase::Boot, tried)?,
        system: planned_names(alloc, set, Phase::System, tried)?,
        automatic: planned_names(alloc, set, Phase::Automatic, tried)?,
    })
}

/// How many attempts were made before the phase at a place ended, or so far.
fn end_of(start: &LastStart, at: usize) -> usize
    requires { at < length start.now.phases }
    ensures { result ≡ end_of start.now at }
{
    let _count = start.phases.len();
    match start.phases.get(at + 1) {
        Some(next) => next.from,
        None => start.attempts.len(),
    }
}

/// Whether the phase at a place ended.
fn is_ended(start: &LastStart, at: usize) -> bool
    requires { at < length start.now.phases }
    ensures { result ≡ is_ended start.now at }
{
    let _count = start.phases.len();
    match start.phases.get(at + 1) {
        Some(_) => true,
        None => start.ended,
    }
}

/// What a phase took, and the names of that.
fn planned(
    alloc: Global,
    start: &LastStart,
    begun: &BegunPhase,
) -> Result<(Entries, NamePlaces), AllocError>
    requires { HoldsKeys begun.now.set }
    ensures plan { IfOk result (λ p. p.0 ≡ plan_of begun.now.set (phase_in begun.now.phase) (tried_upto start.now.attempts begun.now.from)) }
    ensures names { IfOk result (λ p. p.1 ≡ names_of (plan_of begun.now.set (phase_in begun.now.phase) (tried_upto start.now.attempts begun.now.from))) }
{
    let tried = tried_upto(alloc, start.attempts.as_slice(), begun.from)?;
    let plan = plan(alloc, &begun.set, begun.phase, tried.as_slice())?;
    let names = NamePlaces::new(alloc, names_of(alloc, plan.as_slice())?)?;
    Ok((plan, names))
}

/// What phases take after the attempts of a phase at its place.
fn coming_after(
    alloc: Global,
    start: &LastStart,
    at: usize,
    begun: &BegunPhase,
) -> Result<ComingNames, AllocError>
    requires held { HoldsKeys begun.now.set }
    requires within { at < length start.now.phases }
    ensures { IfOk result (λ coming. coming ≡ coming_of begun.now.set (tried_upto start.now.attempts (end_of start.now at))) }
{
    let tried = tried_upto(alloc, start.attempts.as_slice(), end_of(start, at))?;
    coming(alloc, &begun.set, tried.as_slice())
}

/// A phase of a start, at its place.
fn view(
    alloc: Global,
    start: &LastStart,
    at: usize,
    begun: &BegunPhase,
) -> Result<PhaseView, AllocError>
    requires held { HoldsKeys begun.now.set }
    requires within { at < length start.now.phases }
    ensures { IfOk result (λ view. view ≡ view_of start.now at begun.now) }
{
    let (plan, names) = planned(alloc, start, begun)?;
    let coming = coming_after(alloc, start, at, begun)?;
    Ok(PhaseView {
        phase: begun.phase,
        plan,
        names,
        coming,
        end: end_of(start, at),
        ended: is_ended(start, at),
    })
}

/// Puts the phase at a place after the others, where there is one.
fn push_view(
    alloc: Global,
    start: &LastStart,
    at: usize,
    views: &mut PhaseViews,
) -> Result<(), AllocError>
    requires { AreHeld start.now.phases }
    ensures { OnOk result (views.new ≡ views.old ++ option_to_list (option_map (view_of start.now at) (slice_get start.now.phases at))) }
{
    match start.phases.get(at) {
        Some(begun) => views.push(view(alloc, start, at, begun)?),
        None => Ok(()),
    }
}

/// The phases of a start.
fn views(alloc: Global, start: &LastStart) -> Result<PhaseViews, AllocError>
    requires { AreHeld start.now.phases }
    ensures { IfOk result (λ views. views ≡ views_of start.now) }
{
    let mut views = PhaseViews::new(alloc);
    for at in 0..start.phases.len() {
        push_view(alloc, start, at, &mut views)?;
    }
    Ok(views)
}

/// The phases of a run, the names of its attempts, and what phases would take after it.
fn looked(
    alloc: Global,
    run: &QuietRun,
) -> Result<(PhaseViews, NamePlaces, ComingNames), AllocError>
    requires phases { AreHeld run.now.start.phases }
    requires set { HoldsKeys run.now.set }
    ensures views { IfOk result (λ r. r.0 ≡ views_of run.now.start) }
    ensures tried { IfOk result (λ r. r.1 ≡ names_tried run.now.start.attempts) }
    ensures coming { IfOk result (λ r. r.2 ≡ coming_of run.now.set (names_tried run.now.start.attempts)) }
{
    let views = views(alloc, &run.start)?;
    let tried = names_tried(alloc, run.start.attempts.as_slice())?;
    let coming = coming(alloc, &run.set, tried.as_slice())?;
    Ok((views, NamePlaces::new(alloc, tried)?, coming))
}

/// The run with its phases as they are looked at. A hive must be able to hold its sets. Takes n log n time in their services.
#[tactic(auto, unfolding(crate::specs::why_state::Views::viewed_of))]
pub fn viewed(alloc: Global, run: QuietRun) -> Result<ViewedRun, AllocError>
    requires phases { AreHeld run.start.phases }
    requires set { HoldsKeys run.set }
    ensures { IfOk result (λ viewed. viewed ≡ viewed_of run) }
{
    let (views, tried, coming) = looked(alloc, &run)?;
    Ok(ViewedRun {
        run,
        views,
        tried,
        coming,
    })
}
