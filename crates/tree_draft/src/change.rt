//! Changes of the key that a path leads to.

ghost use Rattle.std.specs.Prelude.{◌≡◌, IfOk};
ghost use Rattle.hive_model.specs.Edit.{new_key};
ghost use Rattle.tree_draft.specs.Change.{changed_at, changed_here};
ghost use Rattle.tree_draft.specs.Stops.{Drafts};
ghost use Rattle.tree_draft.specs.declared.change.Change.TheVariants.{PutValue, DropValue, PutKey, DropKey};

use crate::draft::{Draft, DraftKeys};
use crate::stop::DraftStop;
use crate::values::DraftValues;
use nt_bytes::{Bytes, Units};
use reg_tree::{EditStop, LONGEST_DATA, LONGEST_KEY_NAME, LONGEST_VALUE_NAME, Values, is_bad_name};
use std::alloc::{AllocError, Global};
use std::mem::replace;

/// What becomes of a key.
#[derive(Drop)]
pub(crate) enum Change {
    /// It has this value.
    PutValue {
        name: Units,
        kind: u32,
        bytes: Bytes,
    },
    /// It loses this value.
    DropValue {
        name: Units,
    },
    /// It has this child, unless that would lie too deep.
    PutKey {
        name: Units,
        deep: bool,
    },
    /// It loses this child.
    DropKey {
        name: Units,
    },
}

impl Draft {
    fn put_value(
        &mut self,
        alloc: Global,
        name: Units,
        kind: u32,
        bytes: Bytes,
    ) -> Result<(), DraftStop>
        ensures { Drafts self.new result (changed_here (PutValue name kind bytes) self.old) }
    {
        if name.len() > LONGEST_VALUE_NAME {
            return Err(DraftStop::Refused(EditStop::NameTooLong));
        }
        if bytes.len() > LONGEST_DATA {
            return Err(DraftStop::Refused(EditStop::DataTooLong));
        }
        let values = replace(&mut self.values, DraftValues::Kept(Values::new(alloc)));
        let mut opened = values.opened(alloc)?;
        opened.put(alloc, name, kind, bytes)?;
        self.values = DraftValues::Open(opened);
        Ok(())
    }

    fn drop_value(&mut self, alloc: Global, name: Units) -> Result<(), DraftStop>
        ensures { Drafts self.new result (changed_here (DropValue name) self.old) }
    {
        let values = replace(&mut self.values, DraftValues::Kept(Values::new(alloc)));
        let mut opened = values.opened(alloc)?;
        let there = opened.remove(alloc, name.as_slice())?;
        self.values = DraftValues::Open(opened);
        if there {
            Ok(())
        } else {
            Err(DraftStop::Refused(EditStop::NoValue))
        }
    }

    /// A new child with this name.
    fn new_child(&self, alloc: Global, name: Units) -> Result<Draft, AllocError>
        ensures { IfOk result (λ k. k ≡ new_key name self.now) }
    {
        Ok(Draft {
            name,
            flags: 0,
            stamp: self.stamp,
            class: Bytes::new(alloc),
            security: Bytes::from_slice(alloc, self.security.as_slice())?,
            values: DraftValues::Kept(Values::new(alloc)),
            children: DraftKeys::none(alloc),
        })
    }

    fn put_key(&mut self, alloc: Global, name: Units, deep: bool) -> Result<(), DraftStop>
        ensures { Drafts self.new result (changed_here (PutKey name deep) self.old) }
    {
        if is_bad_name(name.as_slice()) {
            return Err(DraftStop::Refused(EditStop::BadName));
        }
        if name.len() > LONGEST_KEY_NAME {
            return Err(DraftStop::Refused(EditStop::NameTooLong));
        }
        if deep {
            return Err(DraftStop::Refused(EditStop::TooDeep));
        }
        if self.children.has(alloc, name.as_slice())? {
            return Ok(());
        }
        let child = self.new_child(alloc, name)?;
        self.children.place(alloc, child)
    }

    fn drop_key(&mut self, alloc: Global, name: Units) -> Result<(), DraftStop>
        ensures { Drafts self.new result (changed_here (DropKey name) self.old) }
    {
        if self.children.remove(alloc, name.as_slice())? {
            Ok(())
        } else {
            Err(DraftStop::Refused(EditStop::NoKey))
        }
    }

    fn change(&mut self, alloc: Global, change: Change) -> Result<(), DraftStop>
        ensures { Drafts self.new result (changed_here change self.old) }
    {
        match change {
            Change::PutValue { name, kind, bytes } => self.put_value(alloc, name, kind, bytes),
            Change::DropValue { name } => self.drop_value(alloc, name),
            Change::PutKey { name, deep } => self.put_key(alloc, name, deep),
            Change::DropKey { name } => self.drop_key(alloc, name),
        }
    }

    /// Changes the key that the path leads to.
    #[cycle(change_at)]
    pub(crate) fn change_at(
        &mut self,
        alloc: Global,
        path: &[Units],
        change: Change,
    ) -> Result<(), DraftStop>
        ensures { Drafts self.new result (changed_at path.now (changed_here change) self.old) }
    {
        match path {
            [] => self.change(alloc, change),
            [first, more @ ..] => {
                self.children
                    .change_at(alloc, first.as_slice(), more, change)
            }
        }
    }
}
