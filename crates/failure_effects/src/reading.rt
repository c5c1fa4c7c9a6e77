//! The set that the plain start takes, read once for all starts on it.

ghost use Rattle.std.specs.Prelude.{◌≡◌, None, slice_get, IfOk};
ghost use Rattle.std.specs.Option.{option_copied, option_map};
ghost use Rattle.hive_model.specs.Tree.{Tree};
ghost use Rattle.hive_model.specs.Valid.{HoldsKeys};
ghost use Rattle.boot_phases.specs.service_entries.Started.{with_start_at};
ghost use Rattle.boot_phases.specs.boot_phases.Lists.{Lists, lists_of};
ghost use Rattle.failure_effects.specs.Played.{played};
ghost use Rattle.failure_effects.specs.Switching.{off_set};

use crate::course::play;
use crate::opening::Taken;
use crate::switching::{OFF, off_set};
use crate::told::ToldRow;
use boot_machine::boot_machine::SetLists;
use nt_bytes::Units;
use reg_tree::Key;
use std::alloc::{AllocError, Global};
use std::marker::Model;

/// The set that the plain start takes, and its lists, by which starts on it are played. Contracts see the former.
#[derive(Drop)]
pub(crate) struct ReadTaken<'a> {
    taken: &'a Taken,
    lists: SetLists,
}

impl<'a> Model for ReadTaken<'a> {
    ghost use Rattle.std.specs.Prelude.{◌≡◌};
    ghost use Rattle.hive_model.specs.Valid.{HoldsKeys};
    ghost use Rattle.boot_phases.specs.boot_phases.Lists.{lists_of};
    ghost use Rattle.failure_effects.specs.declared.opening.Taken.{Taken};
    ghost use Rattle.failure_effects.specs.Codes.{coded_taken};

    ghost Value = { Taken };

    ghost coded = { coded_taken };

    ghost view = { λ a. a.taken.now };

    ghost invariant = { λ a. HoldsKeys a.taken.now.set × (a.lists ≡ lists_of a.taken.now.set) };
}

impl<'a> ReadTaken<'a> {
    /// Reads the lists of the set.
    pub(crate) fn new(alloc: Global, taken: &'a Taken) -> Result<ReadTaken<'a>, AllocError>
        requires { HoldsKeys taken.now.set }
        ensures { IfOk result (λ read. read ≡ taken.now) }
    {
        let lists = SetLists::read(alloc, &taken.set)?;
        Ok(ReadTaken { taken, lists })
    }

    /// What a start on the set says, in which the first attempt of this name fails, where there is one.
    pub(crate) fn play(&self, alloc: Global, failing: Option<&Units>) -> Result<ToldRow, AllocError>
        ensures { IfOk result (λ told. told ≡ played self.now self.now.set (option_copied failing.entry)) }
    {
        play(alloc, self.taken, &self.lists, failing)
    }

    /// What a start says on the set with the entry of this name off. Where no entry has the name, the set is changed and read again.
    pub(crate) fn play_off(&mut self, alloc: Global, name: &[u16]) -> Result<ToldRow, AllocError>
        ensures told { IfOk result (λ told. told ≡ played self.old (off_set name.now self.old.set) None) }
        ensures same { self.new ≡ self.old }
    {
        match self.lists.place_of(alloc, name)? {
            Some(place) => play_with_off(alloc, self.taken, &mut self.lists, place),
            None => play_changed(alloc, self.taken, name),
        }
    }
}

/// What a start says on lists of which the entry at this place is off. The lists are then as they were.
fn play_with_off(
    alloc: Global,
    taken: &Taken,
    lists: &mut SetLists,
    place: u32,
) -> Result<ToldRow, AllocError>
    ensures told { IfOk result (λ told. (set : Tree) → record lists.old { entries = with_start_at lists.old.entries place 4 } ≡ lists_of set
        → told ≡ played taken.now set None) }
    ensures same { lists.new ≡ lists.old }
{
    let before = lists.put_start(place, OFF);
    let told = play(alloc, taken, lists, None);
    put_back(lists, place, before);
    told
}

/// Puts back the Start of the entry at a place, where one stands there.
fn put_back(lists: &mut SetLists, place: u32, before: Option<u32>)
    ensures { (l : Lists) → before ≡ option_map (λ e. e.start) (slice_get l.entries place)
        → lists.old ≡ record l { entries = with_start_at l.entries place 4 } → lists.new ≡ l }
{
    if let Some(start) = before {
        lists.put_start(place, start);
    }
}

/// What a start says on the set with the entry of this name off, of which a copy is changed.
fn play_changed(alloc: Global, taken: &Taken, name: &[u16]) -> Result<ToldRow, AllocError>
    requires { HoldsKeys taken.now.set }
    ensures { IfOk result (λ told. told ≡ played taken.now (off_set name.now taken.now.set) None) }
{
    let set = off_set(alloc, &taken.set, name)?;
    play_set(alloc, taken, &set)
}

/// What a start says on this set.
fn play_set(alloc: Global, taken: &Taken, set: &Key) -> Result<ToldRow, AllocError>
    requires { HoldsKeys set.now }
    ensures { IfOk result (λ told. told ≡ played taken.now set.now None) }
{
    let lists = SetLists::read(alloc, set)?;
    play(alloc, taken, &lists, None)
}
