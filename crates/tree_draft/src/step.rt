//! Steps on a draft.

ghost use Rattle.hive_model.specs.Edit.{value_set, value_deleted, key_made, key_deleted, after_step};
ghost use Rattle.reg_tree.specs.Makes.{step_of};
ghost use Rattle.tree_draft.specs.Stops.{Drafts};

use crate::change::Change;
use crate::draft::Draft;
use crate::stop::DraftStop;
use nt_bytes::{Bytes, Names, Units};
use reg_tree::{EditStop, MOST_PARENTS, TreeStep};
use std::alloc::Global;

impl Draft {
    fn set_value(
        &mut self,
        alloc: Global,
        path: &Names,
        name: &Units,
        kind: u32,
        bytes: &Bytes,
    ) -> Result<(), DraftStop>
        ensures { Drafts self.new result (value_set path.now name.now kind bytes.now self.old) }
    {
        let name = name.copy(alloc)?;
        let bytes = bytes.copy(alloc)?;
        self.change_at(
            alloc,
            path.as_slice(),
            Change::PutValue { name, kind, bytes },
        )
    }

    fn delete_value(&mut self, alloc: Global, path: &Names, name: &Units) -> Result<(), DraftStop>
        ensures { Drafts self.new result (value_deleted path.now name.now self.old) }
    {
        let name = name.copy(alloc)?;
        self.change_at(alloc, path.as_slice(), Change::DropValue { name })
    }

    fn make_key(&mut self, alloc: Global, parent: &Names, name: &Units) -> Result<(), DraftStop>
        ensures { Drafts self.new result (key_made parent.now name.now self.old) }
    {
        let deep = parent.as_slice().len() > MOST_PARENTS;
        let name = name.copy(alloc)?;
        self.change_at(alloc, parent.as_slice(), Change::PutKey { name, deep })
    }

    fn delete_key(&mut self, alloc: Global, path: &Names) -> Result<(), DraftStop>
        ensures { Drafts self.new result (key_deleted path.now self.old) }
    {
        let [parent @ .., name] = path.as_slice() else {
            return Err(DraftStop::Refused(EditStop::NoKey));
        };
        let name = name.copy(alloc)?;
        self.change_at(alloc, parent, Change::DropKey { name })
    }

    /// Makes a step. A draft copies and adds no whole child: that is `Disorder`.
    pub(crate) fn step(&mut self, alloc: Global, step: &TreeStep) -> Result<(), DraftStop>
        ensures { Drafts self.new result (after_step (step_of step.now) self.old) }
    {
        match step {
            TreeStep::SetValue {
                path,
                name,
                kind,
                bytes,
            } => self.set_value(alloc, path, name, *kind, bytes),
            TreeStep::DeleteValue { path, name } => self.delete_value(alloc, path, name),
            TreeStep::MakeKey { parent, name } => self.make_key(alloc, parent, name),
            TreeStep::DeleteKey { path } => self.delete_key(alloc, path),
            TreeStep::CopyChild { .. } => Err(DraftStop::Disorder),
            TreeStep::AddChild { .. } => Err(DraftStop::Disorder),
        }
    }
}
