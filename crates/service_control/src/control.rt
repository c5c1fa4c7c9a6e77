//! The services after the boot.

ghost use Rattle.std.specs.Prelude.{◌≡◌, ◌<◌, ◌^◌, true, length, IfOk, OnOk, OnErr};
ghost use Rattle.std.specs.Option.{option_copied};
ghost use Rattle.hive_model.specs.Valid.{HoldsKeys};
ghost use Rattle.start_model.specs.Order.{orders_of};
ghost use Rattle.start_model.specs.Ready.{has_name};
ghost use Rattle.dependencies.specs.Work.{names_of};
ghost use Rattle.service_control.specs.State.{labels_of, named};
ghost use Rattle.service_control.specs.Calls.{Answers, KnowsRefusal, known_refusal, entry_refusal, start_refusal, start_refusal_at, needs_refusal, turns_refusal_at, started_by, new_of, after_start, off_refusal, stop_refusal, after_stop, after_stop_all, stopped_by};
ghost use Rattle.service_control.specs.First.{table_of, by_group_of, first_running, control_of};

use crate::first::{first_running, table_of};
use crate::judge::{all_start, are_there, is_on, may_start, not_in_use};
use crate::leaning::leaning;
use crate::lists::{append, chosen, copy_of, names, names_back, started, turned, without};
use crate::needed::members;
use crate::rank::by_group;
use crate::stop::ControlStop;
use crate::turns::few;
use boot_phases::group_order::read_orders;
use dependencies::{Need, Needs, Started};
use nt_bytes::Names;
use nt_names::name_places::NamePlaces;
use reg_tree::Key;
use std::alloc::{AllocError, Global};
use std::marker::Model;

/// The drivers and services of a control set, and those of them that are started.
#[derive(Drop)]
pub struct Control {
    table: Needs,
    by_group: Needs,
    running: Needs,
    index: NamePlaces,
    started: Started,
}

impl Model for Control {
    ghost use Rattle.service_control.specs.State.{ControlState, IsKept};

    ghost Value = { ControlState };

    ghost view = { λ a. record { table = a.table; by_group = a.by_group; running = a.running } };

    ghost invariant = { λ a. IsKept a.table a.by_group a.running a.index a.started };
}

impl Control {
    /// The services of a set after a start of it of which each attempt goes well. The keys of the set must be
    /// those that a hive can hold.
    pub fn new(alloc: Global, set: &Key) -> Result<Control, AllocError>
        requires { HoldsKeys set.now }
        ensures { IfOk result (λ c. c ≡ control_of set.now) }
    {
        let (running, started) = begun(alloc, set)?;
        let (table, by_group, index) = tables(alloc, set)?;
        Ok(Control {
            table,
            by_group,
            running,
            index,
            started,
        })
    }

    /// Who is started, the first one first.
    pub fn started(&self) -> &Started
        ensures { result.now ≡ labels_of self.now.running }
    {
        &self.started
    }

    /// The entries of those that are started, the first one first.
    pub fn running(&self) -> &[Need]
        ensures { result.now ≡ self.now.running }
    {
        self.running.as_slice()
    }

    /// Starts the service of this name and all that it needs, and answers the names in the order of the starts.
    /// A refusal leaves everything as it was.
    pub fn start(&mut self, alloc: Global, name: &[u16]) -> Result<Names, ControlStop>
        ensures answer { Answers result (start_refusal self.old name.now) }
        ensures known { KnowsRefusal result (known_refusal self.old name.now) }
        ensures names { IfOk result (λ n. n ≡ names_of (new_of self.old name.now)) }
        ensures state { OnOk result (self.new ≡ after_start self.old name.now) }
        ensures kept { OnErr result (self.new ≡ self.old) }
    {
        let new = self.to_start(alloc, name)?;
        let answer = names(alloc, new.as_slice())?;
        let mut running = copy_of(alloc, self.running.as_slice())?;
        append(alloc, &mut running, new.as_slice())?;
        self.run(alloc, running)?;
        Ok(answer)
    }

    /// Stops the service of this name, on which no other one may lean. A refusal leaves everything as it was.
    pub fn stop(&mut self, alloc: Global, name: &[u16]) -> Result<(), ControlStop>
        ensures answer { Answers result (stop_refusal self.old name.now) }
        ensures known { KnowsRefusal result (off_refusal self.old name.now) }
        ensures state { OnOk result (self.new ≡ after_stop self.old name.now) }
        ensures kept { OnErr result (self.new ≡ self.old) }
    {
        self.may_stop(name)?;
        let flags = leaning(alloc, self.running.as_slice(), name)?;
        let leaning = chosen(alloc, self.running.as_slice(), flags.as_slice())?;
        not_in_use(alloc, leaning.as_slice(), name)?;
        let running = without(alloc, self.running.as_slice(), name)?;
        self.run(alloc, running)?;
        Ok(())
    }

    /// Stops the service of this name and all that lean on it, and answers the names, the last one that was
    /// started first. A refusal leaves everything as it was.
    pub fn stop_all(&mut self, alloc: Global, name: &[u16]) -> Result<Names, ControlStop>
        ensures answer { Answers result (off_refusal self.old name.now) }
        ensures known { KnowsRefusal result (off_refusal self.old name.now) }
        ensures names { IfOk result (λ n. n ≡ stopped_by self.old name.now) }
        ensures state { OnOk result (self.new ≡ after_stop_all self.old name.now) }
        ensures kept { OnErr result (self.new ≡ self.old) }
    {
        self.may_stop(name)?;
        let flags = leaning(alloc, self.running.as_slice(), name)?;
        let leaning = chosen(alloc, self.running.as_slice(), flags.as_slice())?;
        let answer = names_back(alloc, leaning.as_slice())?;
        let stays = turned(alloc, flags.as_slice())?;
        let others = chosen(alloc, self.running.as_slice(), stays.as_slice())?;
        self.run(alloc, others)?;
        Ok(answer)
    }

    /// Those that a start of this name starts.
    fn to_start(&self, alloc: Global, name: &[u16]) -> Result<Needs, ControlStop>
        ensures answer { Answers result (start_refusal self.now name.now) }
        ensures known { KnowsRefusal result (known_refusal self.now name.now) }
        ensures new { IfOk result (λ n. n ≡ new_of self.now name.now) }
    {
        match self.entry(name) {
            None => Err(ControlStop::NoService),
            Some(need) => self.to_start_entry(alloc, need),
        }
    }

    fn to_start_entry(&self, alloc: Global, need: &Need) -> Result<Needs, ControlStop>
        ensures answer { Answers result (start_refusal_at self.now need.now) }
        ensures known { KnowsRefusal result (entry_refusal (labels_of self.now.running) need.now) }
        ensures new { IfOk result (λ n. n ≡ started_by self.now need.now.name) }
    {
        match may_start(need, &self.started) {
            Ok(()) => self.to_start_members(alloc, need),
            Err(stop) => Err(stop),
        }
    }

    /// The same of an entry that may be started.
    fn to_start_members(&self, alloc: Global, need: &Need) -> Result<Needs, ControlStop>
        ensures answer { Answers result (needs_refusal self.now need.now) }
        ensures new { IfOk result (λ n. n ≡ started_by self.now need.now.name) }
    {
        let name = need.name.as_slice();
        let needed = members(alloc, self.table.as_slice(), &self.started, name)?;
        match are_there(alloc, &self.index, needed.as_slice()) {
            Ok(()) => self.to_start_turns(alloc, need),
            Err(stop) => Err(stop),
        }
    }

    /// The same of one whose needs are all there.
    fn to_start_turns(&self, alloc: Global, need: &Need) -> Result<Needs, ControlStop>
        ensures answer { Answers result (turns_refusal_at self.now need.now) }
        ensures new { IfOk result (λ n. n ≡ started_by self.now need.now.name) }
    {
        let name = need.name.as_slice();
        let needed = members(alloc, self.by_group.as_slice(), &self.started, name)?;
        all_start(alloc, &needed, &self.started)
    }

    /// Whether there is a service of this name, and it is started.
    fn may_stop(&self, name: &[u16]) -> Result<(), ControlStop>
        ensures answer { Answers result (off_refusal self.now name.now) }
        ensures known { KnowsRefusal result (off_refusal self.now name.now) }
        ensures on { OnOk result (has_name (labels_of self.now.running) name.now ≡ true) }
    {
        match self.entry(name) {
            None => Err(ControlStop::NoService),
            Some(need) => is_on(need, &self.started),
        }
    }

    /// The first entry of this name, in any case of its letters.
    pub fn entry(&self, name: &[u16]) -> Option<&Need>
        ensures { option_copied result ≡ named self.now.table name.now }
    {
        let place = self.index.place_of(name)?;
        self.table.get(place)
    }

    /// These are the started ones from now on. Without memory all stays as it was.
    fn run(&mut self, alloc: Global, running: Needs) -> Result<(), AllocError>
        ensures ok { OnOk result (self.new ≡ record self.old { running = running }) }
        ensures err { OnErr result (self.new ≡ self.old) }
    {
        let started = started(alloc, running.as_slice())?;
        self.running = running;
        self.started = started;
        Ok(())
    }
}

/// Those that a start of a set starts, and who they are.
fn begun(alloc: Global, set: &Key) -> Result<(Needs, Started), AllocError>
    requires { HoldsKeys set.now }
    ensures running { IfOk result (λ r. r.0 ≡ first_running set.now) }
    ensures started { IfOk result (λ r. r.1 ≡ labels_of r.0) }
{
    let running = first_running(alloc, set)?;
    let started = started(alloc, running.as_slice())?;
    Ok((running, started))
}

/// The drivers and services of a set, the same by their groups, and where their names are.
fn tables(alloc: Global, set: &Key) -> Result<(Needs, Needs, NamePlaces), AllocError>
    requires { HoldsKeys set.now }
    ensures table { IfOk result (λ r. r.0 ≡ table_of set.now) }
    ensures few { IfOk result (λ r. length r.0 < 2 ^ 32) }
    ensures by_group { IfOk result (λ r. r.1 ≡ by_group_of (orders_of set.now) r.0) }
    ensures as_few { IfOk result (λ r. length r.1 < 2 ^ 32) }
    ensures index { IfOk result (λ r. r.2 ≡ names_of r.0) }
{
    let table = table_of(alloc, set)?;
    few(table.len())?;
    let by_group = grouped(alloc, set, table.as_slice())?;
    let index = NamePlaces::new(alloc, names(alloc, table.as_slice())?)?;
    Ok((table, by_group, index))
}

/// The entries by their groups, in the orders of the set.
fn grouped(alloc: Global, set: &Key, table: &[Need]) -> Result<Needs, AllocError>
    requires held { HoldsKeys set.now }
    requires few { length table.now < 2 ^ 32 }
    ensures order { IfOk result (λ n. n ≡ by_group_of (orders_of set.now) table.now) }
    ensures few { IfOk result (λ n. length n < 2 ^ 32) }
{
    let orders = read_orders(alloc, set)?;
    let by_group = by_group(alloc, &orders, table)?;
    few(by_group.len())?;
    Ok(by_group)
}
