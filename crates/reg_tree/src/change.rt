//! Changes of the key that a path leads to.

ghost use Rattle.std.specs.Prelude.{◌≡◌, IfOk, OnOk};
ghost use Rattle.hive_model.specs.Tree.{is_named, is_item};
ghost use Rattle.hive_model.specs.Edit.{at_first, at_key, with_key, new_key, of_items, with_item, of_children, placed, without_first};
ghost use Rattle.reg_tree.specs.Change.{change_of};

use crate::key::{Key, Keys};
use crate::value::Values;
use nt_bytes::{Bytes, Units};
use std::alloc::{AllocError, Global};

/// What becomes of a key.
#[derive(Drop)]
pub(crate) enum Change {
    /// It has this value.
    PutValue {
        name: Units,
        kind: u32,
        bytes: Bytes,
    },
    /// It loses this value.
    DropValue {
        name: Units,
    },
    /// It has this child.
    PutKey {
        name: Units,
    },
    /// It loses this child.
    DropKey {
        name: Units,
    },
}

impl Key {
    /// A new child with this name.
    fn new_child(&self, alloc: Global, name: Units) -> Result<Key, AllocError>
        ensures { IfOk result (λ k. k ≡ new_key name self.now) }
    {
        Ok(Key {
            name,
            flags: 0,
            stamp: self.stamp,
            class: Bytes::new(alloc),
            security: Bytes::from_slice(alloc, self.security.as_slice())?,
            values: Values::new(alloc),
            children: Keys::new(alloc),
        })
    }

    fn put_value(
        &mut self,
        alloc: Global,
        name: Units,
        kind: u32,
        bytes: Bytes,
    ) -> Result<(), AllocError>
        ensures { OnOk result (self.new ≡ of_items (with_item name kind bytes) self.old) }
    {
        self.values.put(alloc, name, kind, bytes)
    }

    fn drop_value(&mut self, name: &[u16])
        ensures { self.new ≡ of_items (without_first (is_item name.now)) self.old }
    {
        self.values.remove(name);
    }

    /// Puts a child among the others.
    #[tactic(auto, using(crate::proofs::Trees::listed_trees))]
    pub(crate) fn insert_child(&mut self, child: Key) -> Result<(), AllocError>
        ensures { OnOk result (self.new ≡ of_children (placed child) self.old) }
    {
        self.children.insert(child)
    }

    #[tactic(auto, using(crate::proofs::Trees::listed_trees))]
    fn drop_key(&mut self, name: &[u16])
        ensures { self.new ≡ of_children (without_first (is_named name.now)) self.old }
    {
        self.children.remove(name);
    }

    fn put_key(&mut self, alloc: Global, name: Units) -> Result<(), AllocError>
        ensures { OnOk result (self.new ≡ with_key name self.old) }
    {
        if self.has_child(name.as_slice()) {
            return Ok(());
        }
        let child = self.new_child(alloc, name)?;
        self.insert_child(child)
    }

    fn change(&mut self, alloc: Global, change: Change) -> Result<(), AllocError>
        ensures { OnOk result (self.new ≡ change_of change self.old) }
    {
        match change {
            Change::PutValue { name, kind, bytes } => self.put_value(alloc, name, kind, bytes),
            Change::DropValue { name } => {
                self.drop_value(name.as_slice());
                Ok(())
            }
            Change::PutKey { name } => self.put_key(alloc, name),
            Change::DropKey { name } => {
                self.drop_key(name.as_slice());
                Ok(())
            }
        }
    }

    /// Changes the key that the path leads to, if there is one.
    #[cycle(change_at)]
    pub(crate) fn change_at(
        &mut self,
        alloc: Global,
        path: &[Units],
        change: Change,
    ) -> Result<(), AllocError>
        ensures { OnOk result (self.new ≡ at_key path.now (change_of change) self.old) }
    {
        match path {
            [] => self.change(alloc, change),
            [first, more @ ..] => {
                self.children
                    .change_below(alloc, first.as_slice(), more, change)
            }
        }
    }
}

impl Keys {
    /// Changes the key that the path leads to from the child of this name, if there is one.
    #[cycle(change_at)]
    fn change_below(
        &mut self,
        alloc: Global,
        child: &[u16],
        path: &[Units],
        change: Change,
    ) -> Result<(), AllocError>
        ensures { OnOk result (self.new ≡ at_first (is_named child.now) (at_key path.now (change_of change)) self.old) }
    {
        let Some(at) = self.place(child) else {
            return Ok(());
        };
        let found = &mut self.items[at];
        match found.change_at(alloc, path, change) {
            Ok(()) => Ok(()),
            Err(stop) => {
                // No clause says what the child is called after a refusal.
                self.rising = false;
                Err(stop)
            }
        }
    }
}
