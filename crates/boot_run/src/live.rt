//! The session of a start that runs, with what was read of it.

ghost use Rattle.std.specs.Prelude.{◌≡◌, ◌≤◌, ◌⊎◌, ◌↔◌, true, length, map, IfOk, OnOk, OnErr};
ghost use Rattle.std.specs.Option.{unwrap_or};
ghost use Rattle.std.specs.List.{All};
ghost use Rattle.hive_model.specs.Base.{version_of};
ghost use Rattle.hive_model.specs.Edit.{edited};
ghost use Rattle.reg_tree.specs.Fitting.{Fits};
ghost use Rattle.reg_tree.specs.Makes.{Makes, step_of};
ghost use Rattle.start_model.specs.Entries.{services_of};
ghost use Rattle.start_model.specs.Sets.{set_of};
ghost use Rattle.start_model.specs.Starter.{good_is_usable, no_set};
ghost use Rattle.boot_run.specs.Begins.{IsTaken};
ghost use Rattle.boot_run.specs.Kept.{current_set, AreRead};

use crate::sets::{count_services, good_is_usable, live_lists};
use boot_machine::boot_machine::SetLists;
use hive_edit::HiveBytes;
use hive_store::Hive;
use reg_tree::{EditStop, Steps};
use std::alloc::{AllocError, Global};
use std::marker::Model;

/// A session, and what was read of it since the last edit: the lists of its current set, and whether LastKnownGood names a set. Contracts see
/// the session alone.
#[derive(Drop)]
pub(crate) struct Live {
    pub(crate) hive: Hive,
    pub(crate) lists: Option<SetLists>,
    pub(crate) usable: Option<bool>,
}

impl Model for Live {
    ghost use Rattle.hive_store.specs.Session.{Session, coded_session};
    ghost use Rattle.boot_run.specs.Kept.{AreKept};

    ghost Value = { Session };

    ghost coded = { coded_session };

    ghost view = { λ a. a.hive };

    ghost invariant = { λ a. AreKept a.lists a.usable a.hive.tree };
}

impl Live {
    /// Whether an edit since the load or the last commit gave a tree unlike the one before it.
    pub(crate) fn changed(&self) -> bool
        ensures { result ≡ self.now.changed }
    {
        self.hive.changed()
    }

    /// The hive as its cells, without a copy.
    pub(crate) fn into_cells(self) -> HiveBytes
        ensures { result ≡ self.cells }
    {
        self.hive.into_cells()
    }

    /// Makes the steps as `Hive::apply` does. What was read before is dropped.
    pub(crate) fn apply(&mut self, alloc: Global, steps: Steps) -> Result<(), EditStop>
        requires fits { All Fits (map step_of steps) }
        ensures made { Makes self.old.tree self.new.tree result
            (edited (version_of self.old.base.minor) self.old.tree (map step_of steps)) }
        ensures refused { OnErr result (self.new ≡ self.old) }
        ensures base { self.new.base ≡ self.old.base }
        ensures bins { self.new.bins ≡ self.old.bins }
        ensures changed { OnOk result (self.new.changed ≡ true
            ↔ (self.old.changed ≡ true) ⊎ (self.new.tree ≡ self.old.tree → ⊥)) }
    {
        self.lists = None;
        self.usable = None;
        self.hive.apply(alloc, steps)
    }

    /// Whether LastKnownGood names a set of the live tree, as it is kept, or else looked up.
    pub(crate) fn good_is_usable(&mut self, alloc: Global) -> Result<bool, AllocError>
        ensures usable { IfOk result (λ usable. usable ≡ good_is_usable self.old.tree) }
        ensures session { self.new ≡ self.old }
    {
        if let Some(usable) = self.usable {
            return Ok(usable);
        }
        let usable = good_is_usable(alloc, &self.hive)?;
        self.usable = Some(usable);
        Ok(usable)
    }

    /// A number that the services of the current set, whose number this is, don't exceed: 2^32 - 1 where its lists are kept, or else
    /// their count.
    pub(crate) fn most_services(&self, alloc: Global, number: u32) -> Result<usize, AllocError>
        requires { IsTaken self.now.tree number }
        ensures { IfOk result (λ n. length (services_of (unwrap_or (set_of self.now.tree number) no_set)) ≤ n) }
    {
        if let Some(_) = &self.lists {
            return Ok(u32::MAX as usize);
        }
        count_services(alloc, &self.hive, number)
    }

    /// Hands out the lists of the current set, whose number this is: those that are kept, or else read again.
    pub(crate) fn take_lists(&mut self, alloc: Global, number: u32) -> Result<SetLists, AllocError>
        requires { IsTaken self.old.tree number }
        ensures lists { IfOk result (AreRead (current_set self.old.tree)) }
        ensures session { self.new ≡ self.old }
    {
        if let Some(lists) = self.lists.take() {
            return Ok(lists);
        }
        live_lists(alloc, &self.hive, number)
    }

    /// Keeps the lists of the current set.
    pub(crate) fn keep(&mut self, lists: SetLists)
        requires { AreRead (current_set self.old.tree) lists }
        ensures { self.new ≡ self.old }
    {
        self.lists = Some(lists);
    }
}
