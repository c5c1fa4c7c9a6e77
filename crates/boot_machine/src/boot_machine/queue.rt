//! The entries of a phase that wait, with the next one at hand.

ghost use Rattle.std.specs.Prelude.{◌≡◌, ◌<◌, ◌^◌, true, length, map, slice_get, Some, IfOk};
ghost use Rattle.std.specs.List.{filter_map};
ghost use Rattle.std.specs.Option.{option_map};
ghost use Rattle.start_model.specs.Demand.{member};
ghost use Rattle.dependencies.specs.Waiting.{next_place_in};
ghost use Rattle.boot_machine.specs.boot_machine.Steps.{is_there};
ghost use Rattle.boot_machine.specs.boot_machine.Queue.{next_among, IsFirst, TakesFirst};

use crate::boot_machine::parts::{Rest, join, split_all};
use boot_phases::service_entries::Entry;
use dependencies::{Need, Started, TestCount, Waiting};
use nt_bytes::{Names, Units};
use std::alloc::{AllocError, Global};
use std::marker::Model;

/// The entries of a phase, those of them that wait, and who was started. What an entry needs is in
/// `waiting`, and at the same place of `rests` what else it has.
#[derive(Drop)]
pub(crate) struct Queue {
    waiting: Waiting,
    rests: Vec<Rest>,
}

impl Model for Queue {
    ghost use Rattle.std.specs.Prelude.{◌≡◌, length};
    ghost use Rattle.std.specs.List.{items_where_true};
    ghost use Rattle.boot_machine.specs.boot_machine.Parts.{all_joined};
    ghost use Rattle.boot_machine.specs.boot_machine.Queue.{QueueState};
    ghost use Rattle.boot_machine.specs.boot_machine.Codes.{coded_queue};

    ghost Value = { QueueState };

    ghost coded = { coded_queue };

    ghost view = { λ a. record { waiting = items_where_true a.waiting.waits (all_joined a.waiting.needs a.rests.items); started = a.waiting.started } };

    ghost invariant = { λ a. length a.rests.items ≡ length a.waiting.needs };
}

impl Queue {
    /// All entries of a phase wait. None of their names is copied.
    pub(crate) fn new(
        alloc: Global,
        entries: Vec<Entry>,
        started: &Started,
    ) -> Result<Queue, AllocError>
        requires { length entries.items < 2 ^ 32 }
        ensures { IfOk result (λ q. q ≡ record { waiting = entries.items; started = started.now }) }
    {
        let (needs, rests) = split_all(alloc, entries)?;
        let mut tests = TestCount::new();
        let waiting = Waiting::new(alloc, needs, started, &mut tests)?;
        Ok(Queue { waiting, rests })
    }

    /// Whether a waiting entry is ready.
    pub(crate) fn has_next(&self) -> bool
        ensures { result ≡ is_there (next_among self.now) }
    {
        self.waiting.next().is_some()
    }

    /// The first waiting entry that is ready, in memory of its own.
    pub(crate) fn first(&self, alloc: Global) -> Result<Entry, AllocError>
        requires { is_there (next_among self.now) ≡ true }
        ensures { IfOk result (IsFirst self.now) }
    {
        let place = next_place(&self.waiting);
        let need = need_at(&self.waiting, place).copy(alloc)?;
        Ok(join(need, self.rests[place as usize]))
    }

    /// The first waiting entry that is ready waits no more, and was started where `ok`.
    pub(crate) fn take_first(&mut self, ok: bool)
        requires { is_there (next_among self.old) ≡ true }
        ensures { (e : Entry) → IsFirst self.old e → TakesFirst self.old self.new e ok }
    {
        let place = next_place(&self.waiting);
        let mut tests = TestCount::new();
        self.waiting.tried(place, ok, &mut tests);
    }

    /// Who was started, before the phase and in it.
    pub(crate) fn started(&self, alloc: Global) -> Result<Started, AllocError>
        ensures { IfOk result (λ started. started ≡ self.now.started) }
    {
        self.waiting.started(alloc)
    }

    /// The names of the entries that wait.
    pub(crate) fn names(&self, alloc: Global) -> Result<Names, AllocError>
        ensures { IfOk result (λ names. names ≡ map (λ e. e.name) self.now.waiting) }
    {
        let left = self.waiting.left(alloc)?;
        names_at(alloc, &self.waiting, left.as_slice())
    }
}

/// The place of the next entry, where there is one.
fn next_place(waiting: &Waiting) -> u32
    requires { is_there (next_place_in waiting.now) ≡ true }
    ensures place { Some result ≡ next_place_in waiting.now }
    ensures waits { member waiting.now.waits result ≡ true }
{
    waiting.next().unwrap()
}

/// What the entry at a place needs.
fn need_at(waiting: &Waiting, place: u32) -> &Need
    requires { place < length waiting.now.needs }
    ensures { Some result.now ≡ slice_get waiting.now.needs place }
{
    waiting.need(place).unwrap()
}

/// The names of the entries at these places.
fn names_at(alloc: Global, waiting: &Waiting, places: &[u32]) -> Result<Names, AllocError>
    ensures { IfOk result (λ names. names ≡ filter_map (λ p. option_map (λ n. n.name) (slice_get waiting.now.needs p)) places.now) }
{
    let mut names = Names::new(alloc);
    for place in places {
        if let Some(name) = name_at(alloc, waiting, *place)? {
            names.push(name)?;
        }
    }
    Ok(names)
}

fn name_at(alloc: Global, waiting: &Waiting, place: u32) -> Result<Option<Units>, AllocError>
    ensures { IfOk result (λ n. n ≡ option_map (λ n. n.name) (slice_get waiting.now.needs place)) }
{
    match waiting.need(place) {
        Some(need) => Ok(Some(need.name.copy(alloc)?)),
        None => Ok(None),
    }
}
