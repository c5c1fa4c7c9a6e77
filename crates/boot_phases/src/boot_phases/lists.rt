//! What plans take from a control set, read once.

ghost use Rattle.std.specs.Prelude.{◌≡◌, ◌<◌, ◌^◌, length, slice_get, IfOk};
ghost use Rattle.std.specs.Option.{option_map};
ghost use Rattle.hive_model.specs.Valid.{HoldsKeys};
ghost use Rattle.boot_phases.specs.service_entries.Named.{IsOnlyPlace};
ghost use Rattle.boot_phases.specs.service_entries.Started.{with_start_at};
ghost use Rattle.boot_phases.specs.boot_phases.Lists.{lists_of, plan_among};
ghost use Rattle.boot_phases.specs.boot_phases.Phases.{phase_in};

use crate::boot_phases::phase::Phase;
use crate::boot_phases::planning::plan_copied;
use crate::group_order::{Orders, read_orders};
use crate::service_entries::{Entries, ServiceTable, entries};
use nt_bytes::Units;
use reg_tree::Key;
use std::alloc::{AllocError, Global};
use std::marker::Model;

/// The services of a control set, and its groups with their tags. Contracts see both.
#[derive(Drop)]
pub struct SetLists {
    pub(crate) table: ServiceTable,
    pub(crate) orders: Orders,
}

impl Model for SetLists {
    ghost use Rattle.std.specs.Prelude.{◌<◌, ◌^◌, length};
    ghost use Rattle.boot_phases.specs.boot_phases.Lists.{Lists};

    ghost Value = { Lists };

    ghost view = { λ a. record { entries = a.table; orders = a.orders } };

    ghost invariant = { λ a. length a.table < 2 ^ 32 };
}

impl SetLists {
    /// Those of a set.
    pub fn read(alloc: Global, set: &Key) -> Result<SetLists, AllocError>
        requires { HoldsKeys set.now }
        ensures { IfOk result (λ lists. lists ≡ lists_of set.now) }
    {
        let table = entries(alloc, set)?;
        let orders = read_orders(alloc, set)?;
        Ok(SetLists { table, orders })
    }

    /// What a phase takes, in its order, as `plan` of the set does. An entry is copied where it is taken.
    pub fn plan(&self, alloc: Global, phase: Phase, tried: &[Units]) -> Result<Entries, AllocError>
        ensures plan { IfOk result (λ p. p ≡ plan_among self.now (phase_in phase) tried.now) }
        ensures few { IfOk result (λ p. length p < 2 ^ 32) }
    {
        match phase {
            Phase::Done => Ok(Entries::new(alloc)),
            Phase::Boot | Phase::System | Phase::Automatic => {
                plan_copied(alloc, &self.table, &self.orders, phase, tried)
            }
        }
    }

    /// The place of the entry of this name, whatever the case of its letters, or none where no entry has it.
    pub fn place_of(&self, alloc: Global, name: &[u16]) -> Result<Option<u32>, AllocError>
        ensures { IfOk result (IsOnlyPlace name.now self.now.entries) }
    {
        self.table.place_of(alloc, name)
    }

    /// Puts another `Start` in the entry at a place, and answers the one that it had; nothing is done where no entry stands there.
    pub fn put_start(&mut self, place: u32, start: u32) -> Option<u32>
        ensures before { result ≡ option_map (λ e. e.start) (slice_get self.old.entries place) }
        ensures after { self.new ≡ record self.old { entries = with_start_at self.old.entries place start } }
    {
        self.table.put_start(place, start)
    }
}
