//! The machine.

ghost use Rattle.std.specs.Prelude.{◌≡◌, true, false, [], IfOk, OnOk, OnErr, Some, None, option_map, option_and_then};
ghost use Rattle.std.specs.Option.{option_map_or};
ghost use Rattle.hive_model.specs.Tree.{Tree};
ghost use Rattle.hive_model.specs.Valid.{HoldsKeys};
ghost use Rattle.boot_phases.specs.boot_phases.Lists.{lists_of};
ghost use Rattle.boot_phases.specs.boot_phases.Phases.{phase_in};
ghost use Rattle.start_model.specs.Entries.{Done};
ghost use Rattle.start_model.specs.Machine.{off_machine, failing, requiring, missing_in, attempt_of, after_phase, unmet_in, begun_with, with_start, save_due, ending_of, ended, refusal_of};
ghost use Rattle.boot_machine.specs.boot_machine.Steps.{is_there, on_start, is_at_end, is_in_last_phase, falls_back, without_clone};
ghost use Rattle.boot_machine.specs.boot_machine.Views.{event_in, tried_in, Answers};

use crate::boot_machine::accept::{accept_off, accept_running};
use crate::boot_machine::attempt::attempt;
use crate::boot_machine::failures::Failures;
use crate::boot_machine::phases::is_last;
use crate::boot_machine::refusal::EventRefusal;
use crate::boot_machine::start::Start;
use crate::boot_machine::tried::Tried;
use crate::boot_machine::vital::require;
use boot_phases::boot_phases::{Phase, SetLists};
use boot_script::boot_script::Event;
use nt_bytes::{Names, Units};
use reg_tree::Key;
use report_text::boot_report::Verdict;
use std::alloc::{AllocError, Global};
use std::marker::Model;

/// A start that runs, if one does, the attempts that are to fail, whether the next start falls back, and the
/// names without which no start passes its boot phase. After lack of memory it is as it was.
#[derive(Drop)]
pub struct Machine {
    pub(crate) start: Option<Start>,
    failures: Failures,
    fallback_due: bool,
    vital: Names,
}

impl Model for Machine {
    ghost use Rattle.start_model.specs.Machine.{MachineState};
    ghost use Rattle.boot_machine.specs.boot_machine.Codes.{coded_machine};

    ghost Value = { MachineState };

    ghost coded = { coded_machine };

    ghost view = { λ a. record { start = a.start; failures = a.failures; fallback_due = a.fallback_due; vital = a.vital } };
}

impl Machine {
    /// A machine that is off, with nothing noted.
    pub fn new(alloc: Global) -> Machine
        ensures { result ≡ off_machine }
    {
        Machine {
            start: None,
            failures: Failures::new(alloc),
            fallback_due: false,
            vital: Names::new(alloc),
        }
    }

    /// Whether the event may be looked at any further, and why not.
    pub fn accept(&self, event: &Event) -> Result<(), EventRefusal>
        ensures { Answers result (refusal_of self.now (event_in event.now)) }
    {
        match &self.start {
            Some(start) => accept_running(start, event),
            None => accept_off(event),
        }
    }

    /// Whether a start runs.
    pub fn is_on(&self) -> bool
        ensures { result ≡ is_there self.now.start }
    {
        self.start.is_some()
    }

    /// The phase of the running start, or Done where none runs.
    pub fn phase(&self) -> Phase
        ensures { phase_in result ≡ option_map_or (λ s. s.phase) self.now.start Done }
    {
        match &self.start {
            Some(start) => start.phase(),
            None => Phase::Done,
        }
    }

    /// The number of the set that the running start took, and whether it took LastKnownGood.
    pub fn running(&self) -> Option<(u32, bool)>
        ensures { result ≡ option_map (λ s. (s.number, s.on_good)) self.now.start }
    {
        match &self.start {
            Some(start) => Some(start.set()),
            None => None,
        }
    }

    /// The verdict where the running start ends by switching off, or with the script. A start must run.
    pub fn ending(&self) -> Verdict
        requires { is_there self.now.start ≡ true }
        ensures { Some result ≡ option_map ending_of self.now.start }
    {
        match &self.start {
            Some(start) => start.ending(),
            None => unreachable!(),
        }
    }

    /// Sets how many attempts of the folded name fail, in place of an earlier number.
    pub fn fail(&mut self, alloc: Global, name: Units, count: u32) -> Result<(), AllocError>
        ensures ok { OnOk result (self.new ≡ failing name count self.old) }
        ensures kept { OnErr result (self.new ≡ self.old) }
    {
        self.failures.set(alloc, name.as_slice(), count)
    }

    /// From now on no start passes its boot phase without this name. One that folds the same stays as it is.
    pub fn require(&mut self, name: Units) -> Result<(), AllocError>
        ensures ok { OnOk result (self.new ≡ requiring name self.old) }
        ensures kept { OnErr result (self.new ≡ self.old) }
    {
        require(&mut self.vital, name)
    }

    /// The vital names that the boot phase of the running start ends without, in their order. A later phase asks
    /// for none.
    pub fn missing(&self, alloc: Global) -> Result<Names, AllocError>
        ensures { IfOk result (λ names. names ≡ option_map_or (missing_in self.now.vital) self.now.start []) }
    {
        match &self.start {
            Some(start) => start.missing(alloc, &self.vital),
            None => Ok(Names::new(alloc)),
        }
    }

    /// The names of the entries of the phase that wait, in their order.
    pub fn unmet(&self, alloc: Global) -> Result<Names, AllocError>
        ensures { IfOk result (λ names. names ≡ option_map_or unmet_in self.now.start []) }
    {
        match &self.start {
            Some(start) => start.unmet(alloc),
            None => Ok(Names::new(alloc)),
        }
    }

    /// Whether the next start falls back; that is then over.
    pub fn take_fallback(&mut self) -> bool
        ensures due { result ≡ self.old.fallback_due }
        ensures taken { self.new ≡ record self.old { fallback_due = false } }
    {
        let due = self.fallback_due;
        self.fallback_due = false;
        due
    }

    /// Begins a start on a set of this number, in its boot phase. The set is copied as the clone. No start
    /// may run, and the keys of the set must be those that a hive can hold.
    pub fn begin(
        &mut self,
        alloc: Global,
        set: &Key,
        number: u32,
        on_last_known_good: bool,
    ) -> Result<(), AllocError>
        requires off { is_there self.old.start ≡ false }
        requires keys { HoldsKeys set.now }
        ensures ok { OnOk result (self.new ≡ with_start (begun_with set.now number on_last_known_good) self.old) }
        ensures kept { OnErr result (self.new ≡ self.old) }
    {
        let clone = set.copy(alloc)?;
        self.begin_with(alloc, clone, number, on_last_known_good)
    }

    /// Begins a start as `begin` does, and keeps the set itself as the clone.
    pub fn begin_with(
        &mut self,
        alloc: Global,
        set: Key,
        number: u32,
        on_last_known_good: bool,
    ) -> Result<(), AllocError>
        requires off { is_there self.old.start ≡ false }
        requires keys { HoldsKeys set }
        ensures ok { OnOk result (self.new ≡ with_start (begun_with set number on_last_known_good) self.old) }
        ensures kept { OnErr result (self.new ≡ self.old) }
    {
        let start = Start::begun(alloc, set, number, on_last_known_good)?;
        self.start = Some(start);
        Ok(())
    }

    /// Begins a start on a set of which these are the lists, without a clone, which only a save needs. No start may run.
    pub fn begin_listed(
        &mut self,
        alloc: Global,
        lists: &SetLists,
        number: u32,
        on_last_known_good: bool,
    ) -> Result<(), AllocError>
        requires { is_there self.old.start ≡ false }
        ensures ok { OnOk result ((set : Tree) → lists.now ≡ lists_of set
            → self.new ≡ with_start (without_clone (begun_with set number on_last_known_good)) self.old) }
        ensures kept { OnErr result (self.new ≡ self.old) }
    {
        let start = Start::begun_listed(alloc, lists, number, on_last_known_good)?;
        self.start = Some(start);
        Ok(())
    }

    /// Whether no waiting entry is ready, or no start runs.
    pub fn at_phase_end(&self) -> bool
        ensures { result ≡ is_at_end self.now.start }
    {
        match &self.start {
            Some(start) => start.is_at_end(),
            None => true,
        }
    }

    /// Attempts the first ready entry. `usable`: LastKnownGood names a set of the live tree. A start must
    /// run, and its phase must not be at its end.
    pub fn attempt(&mut self, alloc: Global, usable: bool) -> Result<Tried, AllocError>
        requires { is_at_end self.old.start ≡ false }
        ensures attempt { IfOk result (λ t. attempt_of self.old usable ≡ Some (self.new, tried_in t)) }
        ensures kept { OnErr result (self.new ≡ self.old) }
    {
        match &mut self.start {
            Some(start) => attempt(alloc, start, &mut self.failures, usable),
            None => unreachable!(),
        }
    }

    /// Goes on to the next phase, whose entries are those of the set as it is now, and answers the names
    /// of the entries that were never ready, in their order. Where no start runs nothing is done.
    pub fn next_phase(&mut self, alloc: Global, set: &Key) -> Result<Names, AllocError>
        requires { HoldsKeys set.now }
        ensures machine { IfOk result (λ _. self.new ≡ on_start (after_phase set.now) self.old) }
        ensures unmet { IfOk result (λ names. names ≡ option_map_or unmet_in self.old.start []) }
        ensures kept { OnErr result (self.new ≡ self.old) }
    {
        match &mut self.start {
            Some(start) => start.next_phase(alloc, set),
            None => Ok(Names::new(alloc)),
        }
    }

    /// Goes on as `next_phase` does, where these are the lists of the set.
    pub fn next_phase_listed(
        &mut self,
        alloc: Global,
        lists: &SetLists,
    ) -> Result<Names, AllocError>
        ensures machine { IfOk result (λ _. (set : Tree) → lists.now ≡ lists_of set → self.new ≡ on_start (after_phase set) self.old) }
        ensures unmet { IfOk result (λ names. names ≡ option_map_or unmet_in self.old.start []) }
        ensures kept { OnErr result (self.new ≡ self.old) }
    {
        match &mut self.start {
            Some(start) => start.next_phase_listed(alloc, lists),
            None => Ok(Names::new(alloc)),
        }
    }

    /// Whether no entries are taken after the phase, or no start runs.
    pub fn in_last_phase(&self) -> bool
        ensures { result ≡ is_in_last_phase self.now.start }
    {
        match &self.start {
            Some(start) => is_last(start.phase()),
            None => true,
        }
    }

    /// Goes on from the last phase as `next_phase` does, whatever the set is now. Where no start runs nothing is done.
    pub fn end_phases(&mut self, alloc: Global) -> Result<Names, AllocError>
        requires { is_in_last_phase self.old.start ≡ true }
        ensures machine { IfOk result (λ _. (set : Tree) → self.new ≡ on_start (after_phase set) self.old) }
        ensures unmet { IfOk result (λ names. names ≡ option_map_or unmet_in self.old.start []) }
        ensures kept { OnErr result (self.new ≡ self.old) }
    {
        match &mut self.start {
            Some(start) => start.end_phases(alloc),
            None => Ok(Names::new(alloc)),
        }
    }

    /// Notes the logon, where a start runs.
    pub fn log_on(&mut self)
        ensures { self.new ≡ on_start (λ s. record s { logged_on = true }) self.old }
    {
        if let Some(start) = &mut self.start {
            start.log_on();
        }
    }

    /// Whether the running start is good, and no save of it was tried.
    pub fn save_due(&self) -> bool
        ensures { result ≡ option_map_or save_due self.now.start false }
    {
        match &self.start {
            Some(start) => start.save_due(),
            None => false,
        }
    }

    /// Hands out the set as the running start began with it, once.
    pub fn take_clone(&mut self) -> Option<Key>
        ensures clone { result ≡ option_and_then (λ s. s.clone) self.old.start }
        ensures taken { self.new ≡ on_start (λ s. record s { clone = None }) self.old }
    {
        match &mut self.start {
            Some(start) => start.take_clone(),
            None => None,
        }
    }

    /// Notes whether the good start was saved.
    pub fn saved(&mut self, ok: bool)
        ensures { self.new ≡ on_start (λ s. record s { saved = Some ok }) self.old }
    {
        if let Some(start) = &mut self.start {
            start.note_saved(ok);
        }
    }

    /// Ends the start. After FallBack the next start takes LastKnownGood.
    pub fn end(&mut self, verdict: Verdict)
        ensures { self.new ≡ ended (falls_back verdict) self.old }
    {
        self.start = None;
        self.fallback_due = self.fallback_due || verdict == Verdict::FallBack;
    }
}
