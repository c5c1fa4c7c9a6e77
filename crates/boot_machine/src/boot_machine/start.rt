//! A start that runs.

ghost use Rattle.std.specs.Prelude.{◌≡◌, ℕ, List, ◌==◌, true, not, filter, Some, None, IfOk, OnErr};
ghost use Rattle.hive_model.specs.Tree.{Tree};
ghost use Rattle.hive_model.specs.Valid.{HoldsKeys};
ghost use Rattle.boot_phases.specs.boot_phases.Lists.{lists_of};
ghost use Rattle.boot_phases.specs.boot_phases.Phases.{phase_in};
ghost use Rattle.start_model.specs.Order.{plan_of};
ghost use Rattle.start_model.specs.Ready.{has_name};
ghost use Rattle.start_model.specs.Machine.{next_in, failures_of, one_failure_less, missing_in, phase_after, unmet_in, after_phase, begun_with, is_good, save_due, ending_with, ending_of};
ghost use Rattle.boot_machine.specs.boot_machine.Steps.{is_there, is_last_phase, AttemptsNext, begun_on, without_clone};

use crate::boot_machine::failures::Failures;
use crate::boot_machine::names::note;
use crate::boot_machine::phases::{is_done, phase_after};
use crate::boot_machine::queue::Queue;
use crate::boot_machine::vital::missing;
use boot_phases::boot_phases::{Phase, SetLists, plan};
use boot_phases::service_entries::Entry;
use dependencies::Started;
use nt_bytes::{Names, Units};
use reg_tree::Key;
use report_text::boot_report::Verdict;
use std::alloc::{AllocError, Global};
use std::marker::Model;

/// A start that runs.
#[derive(Drop)]
pub(crate) struct Start {
    pub(crate) number: u32,
    pub(crate) on_good: bool,
    pub(crate) phase: Phase,
    pub(crate) queue: Queue,
    /// Folded.
    pub(crate) tried: Vec<Units>,
    pub(crate) logged_on: bool,
    pub(crate) saved: Option<bool>,
    pub(crate) clone: Option<Key>,
}

impl Model for Start {
    ghost use Rattle.start_model.specs.Machine.{Start as Running};
    ghost use Rattle.boot_machine.specs.boot_machine.Codes.{coded_start};
    ghost use Rattle.boot_phases.specs.boot_phases.Phases.{phase_in};

    ghost Value = { Running };

    ghost coded = { coded_start };

    ghost view = { λ a. record {
      number = a.number;
      on_good = a.on_good;
      phase = phase_in a.phase;
      waiting = a.queue.waiting;
      tried = a.tried.items;
      started = a.queue.started;
      logged_on = a.logged_on;
      saved = a.saved;
      clone = a.clone;
    } };
}

impl Start {
    /// A start at the beginning of its boot phase. The set is its clone.
    pub(crate) fn begun(
        alloc: Global,
        set: Key,
        number: u32,
        on_good: bool,
    ) -> Result<Start, AllocError>
        requires { HoldsKeys set }
        ensures { IfOk result (λ s. s ≡ begun_with set number on_good) }
    {
        let started = Started::new(alloc);
        let queue = planned(alloc, &set, Phase::Boot, &[], &started)?;
        Ok(Start::of_queue(alloc, queue, number, on_good, Some(set)))
    }

    /// The same on the lists of a set, without a clone.
    pub(crate) fn begun_listed(
        alloc: Global,
        lists: &SetLists,
        number: u32,
        on_good: bool,
    ) -> Result<Start, AllocError>
        ensures { IfOk result (λ s. (set : Tree) → lists.now ≡ lists_of set → s ≡ without_clone (begun_with set number on_good)) }
    {
        let started = Started::new(alloc);
        let queue = planned_listed(alloc, lists, Phase::Boot, &[], &started)?;
        Ok(Start::of_queue(alloc, queue, number, on_good, None))
    }

    /// A start in its boot phase, whose entries these are.
    fn of_queue(
        alloc: Global,
        queue: Queue,
        number: u32,
        on_good: bool,
        clone: Option<Key>,
    ) -> Start
        ensures { result ≡ begun_on queue number on_good clone }
    {
        Start {
            number,
            on_good,
            phase: Phase::Boot,
            queue,
            tried: Vec::new(alloc),
            logged_on: false,
            saved: None,
            clone,
        }
    }

    pub(crate) fn phase(&self) -> Phase
        ensures { phase_in result ≡ self.now.phase }
    {
        self.phase
    }

    pub(crate) fn logged_on(&self) -> bool
        ensures { result ≡ self.now.logged_on }
    {
        self.logged_on
    }

    /// It took LastKnownGood.
    pub(crate) fn on_good(&self) -> bool
        ensures { result ≡ self.now.on_good }
    {
        self.on_good
    }

    /// The number of the set that it took, and whether it took LastKnownGood.
    pub(crate) fn set(&self) -> (u32, bool)
        ensures { result ≡ (self.now.number, self.now.on_good) }
    {
        (self.number, self.on_good)
    }

    /// Whether no waiting entry is ready.
    pub(crate) fn is_at_end(&self) -> bool
        ensures { result ≡ not (is_there (next_in self.now)) }
    {
        !self.queue.has_next()
    }

    /// Takes the first ready entry out of the waiting ones, and notes its attempt. It fails where a failure
    /// of its name is to come, which is then taken.
    pub(crate) fn attempt_next(
        &mut self,
        alloc: Global,
        failures: &mut Failures,
    ) -> Result<(Entry, bool), AllocError>
        requires { is_there (next_in self.old) ≡ true }
        ensures start { IfOk result (λ t. AttemptsNext self.old self.new t.0 t.1) }
        ensures ok { IfOk result (λ t. t.1 ≡ (failures_of failures.old t.0.name == 0)) }
        ensures failures { IfOk result (λ t. failures.new ≡ one_failure_less failures.old t.0.name) }
        ensures kept { OnErr result (self.new ≡ self.old) }
        ensures failures_kept { OnErr result (failures.new ≡ failures.old) }
    {
        let entry = self.queue.first(alloc)?;
        let ok = !failures.has(entry.name.as_slice());
        note(alloc, &mut self.tried, &entry)?;
        self.queue.take_first(ok);
        failures.take(entry.name.as_slice());
        Ok((entry, ok))
    }

    /// The names of the entries that wait.
    pub(crate) fn unmet(&self, alloc: Global) -> Result<Names, AllocError>
        ensures { IfOk result (λ names. names ≡ unmet_in self.now) }
    {
        self.queue.names(alloc)
    }

    /// The vital names that the boot phase ends without, in their order; a later phase asks for none.
    pub(crate) fn missing(&self, alloc: Global, vital: &Names) -> Result<Names, AllocError>
        ensures { IfOk result (λ names. names ≡ missing_in vital.now self.now) }
    {
        match self.phase {
            Phase::Boot => self.not_started(alloc, vital),
            Phase::System | Phase::Automatic | Phase::Done => Ok(Names::new(alloc)),
        }
    }

    /// The vital names that were not started so far.
    fn not_started(&self, alloc: Global, vital: &Names) -> Result<Names, AllocError>
        ensures { IfOk result (λ names. names ≡ filter (λ name. not (has_name self.now.started name)) vital.now) }
    {
        let started = self.queue.started(alloc)?;
        missing(alloc, vital.as_slice(), &started)
    }

    /// Goes on to the next phase, whose entries the set has now, and answers the names of those that wait.
    pub(crate) fn next_phase(&mut self, alloc: Global, set: &Key) -> Result<Names, AllocError>
        requires { HoldsKeys set.now }
        ensures start { IfOk result (λ _. self.new ≡ after_phase set.now self.old) }
        ensures unmet { IfOk result (λ names. names ≡ unmet_in self.old) }
        ensures kept { OnErr result (self.new ≡ self.old) }
    {
        let phase = phase_after(self.phase);
        let started = self.queue.started(alloc)?;
        let queue = planned(alloc, set, phase, self.tried.as_slice(), &started)?;
        self.go_on(alloc, phase, queue)
    }

    /// The same where these are the lists of the set.
    pub(crate) fn next_phase_listed(
        &mut self,
        alloc: Global,
        lists: &SetLists,
    ) -> Result<Names, AllocError>
        ensures start { IfOk result (λ _. (set : Tree) → lists.now ≡ lists_of set → self.new ≡ after_phase set self.old) }
        ensures unmet { IfOk result (λ names. names ≡ unmet_in self.old) }
        ensures kept { OnErr result (self.new ≡ self.old) }
    {
        let phase = phase_after(self.phase);
        let started = self.queue.started(alloc)?;
        let queue = planned_listed(alloc, lists, phase, self.tried.as_slice(), &started)?;
        self.go_on(alloc, phase, queue)
    }

    /// Goes on from the last phase, after which nothing is taken of a set, and answers the names of those that wait.
    pub(crate) fn end_phases(&mut self, alloc: Global) -> Result<Names, AllocError>
        requires { is_last_phase self.old.phase ≡ true }
        ensures start { IfOk result (λ _. (set : Tree) → self.new ≡ after_phase set self.old) }
        ensures unmet { IfOk result (λ names. names ≡ unmet_in self.old) }
        ensures kept { OnErr result (self.new ≡ self.old) }
    {
        let phase = phase_after(self.phase);
        let started = self.queue.started(alloc)?;
        let queue = nothing_planned(alloc, self.phase, &started)?;
        let unmet = self.queue.names(alloc)?;
        self.phase = phase;
        self.queue = queue;
        Ok(unmet)
    }

    /// Goes on to a phase, whose entries these are, and answers the names of those that wait.
    fn go_on(&mut self, alloc: Global, phase: Phase, queue: Queue) -> Result<Names, AllocError>
        ensures start { IfOk result (λ _. self.new ≡ record self.old { phase = phase_in phase; waiting = queue.waiting; started = queue.started }) }
        ensures unmet { IfOk result (λ names. names ≡ unmet_in self.old) }
        ensures kept { OnErr result (self.new ≡ self.old) }
    {
        let unmet = self.queue.names(alloc)?;
        self.phase = phase;
        self.queue = queue;
        Ok(unmet)
    }

    pub(crate) fn log_on(&mut self)
        ensures { self.new ≡ record self.old { logged_on = true } }
    {
        self.logged_on = true;
    }

    /// Notes whether the good start was saved.
    pub(crate) fn note_saved(&mut self, ok: bool)
        ensures { self.new ≡ record self.old { saved = Some ok } }
    {
        self.saved = Some(ok);
    }

    pub(crate) fn take_clone(&mut self) -> Option<Key>
        ensures clone { result ≡ self.old.clone }
        ensures taken { self.new ≡ record self.old { clone = None } }
    {
        self.clone.take()
    }

    /// Whether the start is good and no save was tried.
    pub(crate) fn save_due(&self) -> bool
        ensures { result ≡ save_due self.now }
    {
        self.is_good() && self.saved.is_none()
    }

    fn is_good(&self) -> bool
        ensures { result ≡ is_good self.now }
    {
        is_done(self.phase) && self.logged_on
    }

    /// The verdict where the start ends by switching off, or with the script.
    pub(crate) fn ending(&self) -> Verdict
        ensures { result ≡ ending_of self.now }
    {
        if self.is_good() {
            ending_with(self.saved)
        } else {
            Verdict::Running
        }
    }
}

fn ending_with(saved: Option<bool>) -> Verdict
    ensures { result ≡ ending_with saved }
{
    match saved {
        Some(true) => Verdict::Good,
        Some(false) => Verdict::GoodUnsaved,
        None => Verdict::GoodUnsaved,
    }
}

/// The entries of a phase, which all wait.
fn planned(
    alloc: Global,
    set: &Key,
    phase: Phase,
    tried: &[Units],
    started: &Started,
) -> Result<Queue, AllocError>
    requires { HoldsKeys set.now }
    ensures { IfOk result (λ q. q ≡ record { waiting = plan_of set.now (phase_in phase) tried.now; started = started.now }) }
{
    let entries = plan(alloc, set, phase, tried)?;
    Queue::new(alloc, entries.into_vec(), started)
}

/// The entries of a phase, which all wait, where these are the lists of a set.
fn planned_listed(
    alloc: Global,
    lists: &SetLists,
    phase: Phase,
    tried: &[Units],
    started: &Started,
) -> Result<Queue, AllocError>
    ensures { IfOk result (λ q. (set : Tree) → lists.now ≡ lists_of set
        → q ≡ record { waiting = plan_of set (phase_in phase) tried.now; started = started.now }) }
{
    let entries = lists.plan(alloc, phase, tried)?;
    Queue::new(alloc, entries.into_vec(), started)
}

/// The entries after a last phase, which are none, whatever the set is.
fn nothing_planned(alloc: Global, last: Phase, started: &Started) -> Result<Queue, AllocError>
    requires { is_last_phase (phase_in last) ≡ true }
    ensures { IfOk result (λ q. (set : Tree) (tried : List (List ℕ)) → q
        ≡ record { waiting = plan_of set (phase_after (phase_in last)) tried; started = started.now }) }
{
    match last {
        Phase::Automatic | Phase::Done => Queue::new(alloc, Vec::new(alloc), started),
        Phase::Boot | Phase::System => unreachable!(),
    }
}
