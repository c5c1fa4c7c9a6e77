//! Edits in steps, all or none.

ghost use Rattle.std.specs.Prelude.{◌≡◌, map, Ok};
ghost use Rattle.std.specs.List.{All};
ghost use Rattle.hive_model.specs.Edit.{value_set, value_deleted, key_made, key_deleted, child_copied, child_added, after_step, edited, has_item, is_bad_name, with_child};
ghost use Rattle.hive_model.specs.Valid.{IsValid};
ghost use Rattle.reg_tree.specs.Fitting.{Fits};
ghost use Rattle.reg_tree.specs.Makes.{Edits, Makes, step_of};

use crate::change::Change;
use crate::key::Key;
use crate::steps::{Steps, TreeStep};
use crate::stop::EditStop;
use nt_bytes::{Bytes, HiveVersion, Names, Units};
use std::alloc::Global;

/// The greatest bulk of an edited tree, in bytes.
pub const MOST_BULK: u64 = 16_773_120;

/// How many units a key's name may have.
pub const LONGEST_KEY_NAME: usize = 255;

/// How many units a value's name may have.
pub const LONGEST_VALUE_NAME: usize = 16_383;

/// How many bytes an edit may give a value.
pub const LONGEST_DATA: usize = 1_048_576;

/// How many names the path to a new key's parent may have: the new key is two levels below its length, and the last level is 512.
pub const MOST_PARENTS: usize = 510;

/// Whether no new key may have this name: it is empty, or has a backslash.
pub fn is_bad_name(name: &[u16]) -> bool
    ensures { result ≡ is_bad_name name.now }
{
    name.len() == 0 || name.contains(&0x5c)
}

impl Key {
    fn has_item(&self, path: &Names, name: &[u16]) -> bool
        ensures { result ≡ has_item path.now name.now self.now }
    {
        let Some(key) = self.find(path) else {
            return false;
        };
        key.value(name).is_some()
    }

    fn set_value(
        &mut self,
        alloc: Global,
        path: Names,
        name: Units,
        kind: u32,
        bytes: Bytes,
    ) -> Result<(), EditStop>
        ensures { Edits self.new result (value_set path name kind bytes self.old) }
    {
        if !self.has_key(&path) {
            return Err(EditStop::NoKey);
        }
        if name.len() > LONGEST_VALUE_NAME {
            return Err(EditStop::NameTooLong);
        }
        if bytes.len() > LONGEST_DATA {
            return Err(EditStop::DataTooLong);
        }
        self.change_at(
            alloc,
            path.as_slice(),
            Change::PutValue { name, kind, bytes },
        )?;
        Ok(())
    }

    fn delete_value(&mut self, alloc: Global, path: Names, name: Units) -> Result<(), EditStop>
        ensures { Edits self.new result (value_deleted path name self.old) }
    {
        if !self.has_key(&path) {
            return Err(EditStop::NoKey);
        }
        if !self.has_item(&path, name.as_slice()) {
            return Err(EditStop::NoValue);
        }
        self.change_at(alloc, path.as_slice(), Change::DropValue { name })?;
        Ok(())
    }

    fn make_key(&mut self, alloc: Global, parent: Names, name: Units) -> Result<(), EditStop>
        ensures { Edits self.new result (key_made parent name self.old) }
    {
        if !self.has_key(&parent) {
            return Err(EditStop::NoKey);
        }
        if is_bad_name(name.as_slice()) {
            return Err(EditStop::BadName);
        }
        if name.len() > LONGEST_KEY_NAME {
            return Err(EditStop::NameTooLong);
        }
        if parent.as_slice().len() > MOST_PARENTS {
            return Err(EditStop::TooDeep);
        }
        self.change_at(alloc, parent.as_slice(), Change::PutKey { name })?;
        Ok(())
    }

    fn delete_key(&mut self, alloc: Global, path: Names) -> Result<(), EditStop>
        ensures { Edits self.new result (key_deleted path self.old) }
    {
        let [parent @ .., name] = path.as_slice() else {
            return Err(EditStop::NoKey);
        };
        if !self.has_key(&path) {
            return Err(EditStop::NoKey);
        }
        let name = Units::from_slice(alloc, name.as_slice())?;
        self.change_at(alloc, parent, Change::DropKey { name })?;
        Ok(())
    }

    /// Puts a key under the root, which has none of this name.
    fn put_child(&mut self, name: Units, mut child: Key) -> Result<(), EditStop>
        ensures { Edits self.new result (Ok (with_child name child self.old)) }
    {
        child.name = name;
        self.insert_child(child)?;
        Ok(())
    }

    fn copy_child(&mut self, alloc: Global, from: Units, to: Units) -> Result<(), EditStop>
        ensures { Edits self.new result (child_copied from to self.old) }
    {
        let Some(child) = self.child(from.as_slice()) else {
            return Err(EditStop::NoKey);
        };
        if is_bad_name(to.as_slice()) {
            return Err(EditStop::BadName);
        }
        if to.len() > LONGEST_KEY_NAME {
            return Err(EditStop::NameTooLong);
        }
        if self.has_child(to.as_slice()) {
            return Err(EditStop::Exists);
        }
        let copy = child.copy(alloc)?;
        self.put_child(to, copy)
    }

    fn add_child(&mut self, name: Units, key: Key) -> Result<(), EditStop>
        ensures { Edits self.new result (child_added name key self.old) }
    {
        if is_bad_name(name.as_slice()) {
            return Err(EditStop::BadName);
        }
        if name.len() > LONGEST_KEY_NAME {
            return Err(EditStop::NameTooLong);
        }
        if self.has_child(name.as_slice()) {
            return Err(EditStop::Exists);
        }
        if key.is_deeper(511) {
            return Err(EditStop::TooDeep);
        }
        self.put_child(name, key)
    }

    fn step(&mut self, alloc: Global, step: TreeStep) -> Result<(), EditStop>
        ensures { Edits self.new result (after_step (step_of step) self.old) }
    {
        match step {
            TreeStep::SetValue {
                path,
                name,
                kind,
                bytes,
            } => self.set_value(alloc, path, name, kind, bytes),
            TreeStep::DeleteValue { path, name } => self.delete_value(alloc, path, name),
            TreeStep::MakeKey { parent, name } => self.make_key(alloc, parent, name),
            TreeStep::DeleteKey { path } => self.delete_key(alloc, path),
            TreeStep::CopyChild { from, to } => self.copy_child(alloc, from, to),
            TreeStep::AddChild { name, key } => self.add_child(name, key),
        }
    }

    /// Makes the steps in order, all or none. The first step that is refused decides; where none is,
    /// a result whose bulk in this version is over 16,773,120 bytes is `Full`. After an `Err` the tree is
    /// as before. A tree that a hive can hold stays one, where each key that a step brings along can be
    /// held too.
    pub fn apply(
        &mut self,
        alloc: Global,
        steps: Steps,
        version: HiveVersion,
    ) -> Result<(), EditStop>
        ensures made { Makes self.old self.new result (edited version self.old (map step_of steps)) }
        ensures valid { IsValid self.old → All Fits (map step_of steps) → IsValid self.new }
    {
        let mut work = self.copy(alloc)?;
        let mut rest = steps.into_vec().into_iter();
        'steps: while let Some(step) = rest.next() {
            work.step(alloc, step)?;
        }
        if work.bulk(version) > MOST_BULK {
            return Err(EditStop::Full);
        }
        *self = work;
        Ok(())
    }
}
