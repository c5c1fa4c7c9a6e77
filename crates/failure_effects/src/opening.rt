//! How the plain start begins: which set it takes, and what it then plays on.

ghost use Rattle.std.specs.Prelude.{◌≡◌, map, IfOk, IsSome};
ghost use Rattle.std.specs.List.{All};
ghost use Rattle.hive_model.specs.Valid.{HoldsKeys, IsValid};
ghost use Rattle.hive_model.specs.Edit.{edited};
ghost use Rattle.reg_tree.specs.Fitting.{Fits};
ghost use Rattle.reg_tree.specs.Makes.{step_of, refusal_of};
ghost use Rattle.start_model.specs.Sets.{begin_of, stepped, is_usable};
ghost use Rattle.start_model.specs.Starter.{no_set, good_is_usable};
ghost use Rattle.failure_effects.specs.Opening.{opening_of, opened, opened_by, stopped_as, taken_set, taken_of, HoldsTaken};

use nt_bytes::{Bytes, HiveVersion, Units};
use reg_tree::{EditStop, Key, Keys, Steps, Values};
use report_text::boot_report::Verdict;
use select_keys::{SelectStop, SetPlan, plan_begin, select_numbers, set_of, sets_in};
use std::alloc::{AllocError, Global};

/// What boot.ini has for the plain start.
#[derive(Clone, Copy, Debug, PartialEq, Eq)]
pub enum StartChoice {
    /// An entry of this system, which asks for LastKnownGood or not.
    OnSet(bool),
    /// The start ends before it takes a set.
    Ends(Verdict),
}

/// The set that the plain start takes.
#[derive(Drop)]
pub struct Taken {
    pub number: u32,
    /// It is taken as LastKnownGood.
    pub on_good: bool,
    /// LastKnownGood names a set, so that a failure may fall back.
    pub usable: bool,
    pub set: Key,
}

/// What becomes of the plain start before its phases.
#[derive(Drop)]
pub enum Opening {
    /// It ends before a set is named.
    NoSet(Verdict),
    /// It ends after a set was named, and before its boot phase.
    NoPhase {
        number: u32,
        on_good: bool,
        verdict: Verdict,
    },
    /// It reaches its boot phase.
    Begun(Taken),
}

/// What becomes of the plain start on a tree that a hive of this version loads as.
pub(crate) fn open(
    alloc: Global,
    root: Key,
    version: HiveVersion,
    choice: StartChoice,
) -> Result<Opening, AllocError>
    requires { IsValid root }
    ensures opening { IfOk result (λ o. o ≡ opening_of version root choice) }
    ensures held { IfOk result HoldsTaken }
{
    match choice {
        StartChoice::OnSet(on_good) => open_on(alloc, root, version, on_good),
        StartChoice::Ends(verdict) => Ok(Opening::NoSet(verdict)),
    }
}

/// LastKnownGood or Default is taken, where it names a set.
fn open_on(
    alloc: Global,
    root: Key,
    version: HiveVersion,
    on_good: bool,
) -> Result<Opening, AllocError>
    requires { IsValid root }
    ensures opening { IfOk result (λ o. o ≡ opened on_good root (begin_of version root on_good)) }
    ensures held { IfOk result HoldsTaken }
{
    let numbers = select_numbers(&root);
    let sets = sets_in(&root);
    match plan_begin(alloc, numbers, &sets, on_good) {
        Ok(plan) => begin_planned(alloc, root, version, plan, on_good),
        Err(stop) => stopped(stop, numbers.taken(on_good), on_good),
    }
}

/// There is no plan, for this reason.
fn stopped(stop: SelectStop, number: u32, on_good: bool) -> Result<Opening, AllocError>
    ensures opening { IfOk result (λ o. o ≡ stopped_as stop number on_good) }
    ensures told { IfOk result (λ o. stop ≡ SelectStop.Memory → ⊥) }
    ensures held { IfOk result HoldsTaken }
{
    match stop {
        SelectStop::NoControlSet => Ok(Opening::NoSet(Verdict::NoControlSet)),
        SelectStop::NoLastKnownGood => Ok(Opening::NoSet(Verdict::NoLastKnownGood)),
        SelectStop::NoFreeNumber => Ok(Opening::NoPhase {
            number,
            on_good,
            verdict: Verdict::NoNumber,
        }),
        SelectStop::Memory => Err(AllocError),
    }
}

/// The steps of the plan are made, where there are any, and the set is taken of what they lead to.
fn begin_planned(
    alloc: Global,
    root: Key,
    version: HiveVersion,
    plan: SetPlan,
    on_good: bool,
) -> Result<Opening, AllocError>
    requires valid { IsValid root }
    requires fits { All Fits plan.steps }
    ensures opening { IfOk result (λ o. o ≡ opened_by on_good plan.chosen (stepped version root plan.steps)) }
    ensures held { IfOk result HoldsTaken }
{
    let number = plan.chosen;
    if plan.steps.is_empty() {
        return begun(alloc, &root, number, on_good);
    }
    begin_stepped(alloc, root, version, plan.steps, number, on_good)
}

/// The steps are made, and the set is taken of what they lead to; or they lead to no hive.
fn begin_stepped(
    alloc: Global,
    root: Key,
    version: HiveVersion,
    steps: Steps,
    number: u32,
    on_good: bool,
) -> Result<Opening, AllocError>
    requires valid { IsValid root }
    requires fits { All Fits (map step_of steps) }
    ensures opening { IfOk result (λ o. o ≡ opened_by on_good number (edited version root (map step_of steps))) }
    ensures held { IfOk result HoldsTaken }
{
    let mut tree = root;
    match tree.apply(alloc, steps, version) {
        Ok(()) => begun(alloc, &tree, number, on_good),
        Err(stop) => refused(stop, number, on_good),
    }
}

/// The steps are refused, or there was no memory for them.
fn refused(stop: EditStop, number: u32, on_good: bool) -> Result<Opening, AllocError>
    ensures opening { IfOk result (λ o. o ≡ Opening.NoPhase number on_good Verdict.Full) }
    ensures why { IfOk result (λ o. IsSome (refusal_of stop)) }
    ensures held { IfOk result HoldsTaken }
{
    match stop {
        EditStop::Memory => Err(AllocError),
        EditStop::NoKey
        | EditStop::NoValue
        | EditStop::BadName
        | EditStop::Exists
        | EditStop::NameTooLong
        | EditStop::TooDeep
        | EditStop::DataTooLong
        | EditStop::Full => Ok(Opening::NoPhase {
            number,
            on_good,
            verdict: Verdict::Full,
        }),
    }
}

/// The set of this number is taken.
fn begun(alloc: Global, tree: &Key, number: u32, on_good: bool) -> Result<Opening, AllocError>
    requires { IsValid tree.now }
    ensures opening { IfOk result (λ o. o ≡ Opening.Begun (taken_of on_good number tree.now)) }
    ensures held { IfOk result HoldsTaken }
{
    let usable = good_is_usable(tree);
    let set = taken_set(alloc, tree, number)?;
    Ok(Opening::Begun(Taken {
        number,
        on_good,
        usable,
        set,
    }))
}

/// Whether LastKnownGood names a set.
fn good_is_usable(tree: &Key) -> bool
    requires { IsValid tree.now }
    ensures { result ≡ good_is_usable tree.now }
{
    let numbers = select_numbers(tree);
    is_usable(tree, numbers.good)
}

/// Whether the number names a set.
fn is_usable(tree: &Key, number: u32) -> bool
    requires { IsValid tree.now }
    ensures { result ≡ is_usable tree.now number }
{
    set_of(tree, number).is_some()
}

/// The set of this number, which is there.
fn taken_set(alloc: Global, tree: &Key, number: u32) -> Result<Key, AllocError>
    requires { IsValid tree.now }
    ensures set { IfOk result (λ set. set ≡ taken_set tree.now number) }
    ensures held { IfOk result HoldsKeys }
{
    match set_of(tree, number) {
        Some(set) => set.copy(alloc),
        None => no_set(alloc),
    }
}

/// A key with nothing.
fn no_set(alloc: Global) -> Result<Key, AllocError>
    ensures set { IfOk result (λ set. set ≡ no_set) }
    ensures held { IfOk result HoldsKeys }
{
    Ok(Key {
        name: Units::new(alloc),
        flags: 0,
        stamp: 0,
        class: Bytes::new(alloc),
        security: Bytes::new(alloc),
        values: Values::new(alloc),
        children: Keys::new(alloc),
    })
}
