//! One entry of a service.

ghost use Rattle.std.specs.Prelude.{◌≡◌, codes, IfOk};
ghost use Rattle.start_model.specs.Entries.{entry_of, control_in, named_group};
ghost use Rattle.hive_model.specs.Tree.{find_string};
ghost use Rattle.std.specs.Option.{option_copied};

use nt_bytes::{Names, Row, Units};
use nt_names::startup_names::{
    DEPEND_ON_GROUP, DEPEND_ON_SERVICE, ERROR_CONTROL, GROUP, START, TAG, TYPE,
};
use reg_tree::Key;
use std::alloc::{AllocError, Global};
use std::marker::Model;

/// What the key of a service says.
#[derive(Drop)]
pub struct Entry {
    /// The name of the key.
    pub name: Units,
    /// `Start`: 0 boot, 1 system, 2 automatic, 3 on demand, 4 disabled.
    pub start: u32,
    /// `Type`: a bit of 0x0B for a driver, else one of 0x30 for a service.
    pub kind: u32,
    /// `ErrorControl`: 0 ignore, 1 normal, 2 severe, 3 critical.
    pub control: u32,
    /// `Group`: none where it is missing or empty.
    pub group: Option<Units>,
    /// `Tag`, by which an order of tags names the entry within its group.
    pub tag: Option<u32>,
    /// `DependOnService`.
    pub services: Names,
    /// `DependOnGroup`.
    pub groups: Names,
}

/// Entries, in the order of the registry or of a phase.
pub type Entries = Row<Entry>;

impl Model for Entry {
    ghost use Rattle.start_model.specs.Entries.{Entry as Item};

    ghost Value = { Item };

    ghost view = { λ a. record {
      name = a.name;
      start = a.start;
      kind = a.kind;
      control = a.control;
      group = a.group;
      tag = a.tag;
      services = a.services;
      groups = a.groups;
    } };
}

/// The entry that a child of `Services` is, or none where `Start` or `Type` is no DWORD.
pub(crate) fn read_entry(alloc: Global, key: &Key) -> Result<Option<Entry>, AllocError>
    ensures { IfOk result (λ e. e ≡ entry_of key.now) }
{
    let Some(start) = key.dword(&START) else {
        return Ok(None);
    };
    let Some(kind) = key.dword(&TYPE) else {
        return Ok(None);
    };
    Ok(Some(Entry {
        name: Units::from_slice(alloc, key.name.as_slice())?,
        start,
        kind,
        control: control(key),
        group: group(alloc, key)?,
        tag: key.dword(&TAG),
        services: key.strings(alloc, &DEPEND_ON_SERVICE)?,
        groups: key.strings(alloc, &DEPEND_ON_GROUP)?,
    }))
}

/// The value of `ErrorControl`: 1 where it is missing or above 3.
fn control(key: &Key) -> u32
    ensures { result ≡ control_in key.now }
{
    key.dword(&ERROR_CONTROL)
        .filter(|control| *control <= 3)
        .unwrap_or(1)
}

/// The value of `Group`: none where it is missing or empty.
fn group(alloc: Global, key: &Key) -> Result<Option<Units>, AllocError>
    ensures { IfOk result (λ g. g ≡ named_group (find_string (codes "Group") key.now)) }
{
    let name = key.text(alloc, &GROUP)?;
    Ok(name.filter(|name| !name.is_empty()))
}

impl Entry {
    /// The same entry in memory of its own.
    pub fn copy(&self, alloc: Global) -> Result<Entry, AllocError>
        ensures { IfOk result (λ e. e ≡ self.now) }
    {
        Ok(Entry {
            name: self.name.copy(alloc)?,
            start: self.start,
            kind: self.kind,
            control: self.control,
            group: copy_group(alloc, self.group.as_ref())?,
            tag: self.tag,
            services: self.services.copy(alloc)?,
            groups: self.groups.copy(alloc)?,
        })
    }
}

fn copy_group(alloc: Global, group: Option<&Units>) -> Result<Option<Units>, AllocError>
    ensures { IfOk result (λ g. g ≡ option_copied group.entry) }
{
    match group {
        Some(name) => Ok(Some(name.copy(alloc)?)),
        None => Ok(None),
    }
}
