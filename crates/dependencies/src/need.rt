//! What an entry needs, and lists of such needs and of places in them.

ghost use Rattle.std.specs.Prelude.{◌≡◌, IfOk};

use nt_bytes::{Names, Row, Units};
use std::alloc::{AllocError, Global};
use std::marker::Model;

/// An entry's name, Start value, own group, and the names and groups that it depends on.
#[derive(Drop)]
pub struct Need {
    pub name: Units,
    pub start: u32,
    pub group: Option<Units>,
    pub services: Names,
    pub groups: Names,
}

impl Model for Need {
    ghost use Rattle.start_model.specs.Demand.{Need as Needed};

    ghost Value = { Needed };

    ghost view = { λ a. record { name = a.name; start = a.start; group = a.group; services = a.services; groups = a.groups } };
}

impl Need {
    /// The same need in memory of its own.
    pub fn copy(&self, alloc: Global) -> Result<Need, AllocError>
        ensures { IfOk result (λ n. n ≡ self.now) }
    {
        Ok(Need {
            name: self.name.copy(alloc)?,
            start: self.start,
            group: copied(alloc, &self.group)?,
            services: self.services.copy(alloc)?,
            groups: self.groups.copy(alloc)?,
        })
    }
}

/// The same name, where there is one, in memory of its own.
pub(crate) fn copied(alloc: Global, name: &Option<Units>) -> Result<Option<Units>, AllocError>
    ensures { IfOk result (λ n. n ≡ name.now) }
{
    match name {
        Some(units) => Ok(Some(units.copy(alloc)?)),
        None => Ok(None),
    }
}

/// Needs, in the order of the registry or of a phase.
pub type Needs = Row<Need>;

/// Places in a list, from 0.
pub type Places = Row<u32>;
