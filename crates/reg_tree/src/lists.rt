//! Lists of keys and values with one item changed.

ghost use Rattle.std.specs.Prelude.{◌≡◌, [], ◌∷◌, ◌++◌, OnOk, None, position};
ghost use Rattle.hive_model.specs.Tree.{is_named, is_item};
ghost use Rattle.hive_model.specs.Edit.{without_first, with_item, placed};

use crate::halves::{gap, named_place};
use crate::key::{Key, Keys};
use crate::value::{Value, Values};
use crate::value_places::{close_up, order_of, order_with, value_place};
use nt_bytes::{Bytes, Units};
use std::alloc::{AllocError, Global};
use std::mem::replace;

/// The least number of values for which an order is made.
const SOME: usize = 8;

impl Values {
    /// Where the first value with this name stands.
    fn place(&self, name: &[u16]) -> Option<usize>
        ensures { result ≡ position (is_item name.now) self.now }
    {
        value_place(self.items.as_slice(), self.order.as_slice(), name)
    }

    /// Sets type and data of the value of this name, or adds it as the last.
    pub(crate) fn put(
        &mut self,
        alloc: Global,
        name: Units,
        kind: u32,
        bytes: Bytes,
    ) -> Result<(), AllocError>
        ensures { OnOk result (self.new ≡ with_item name kind bytes self.old) }
    {
        self.make_order(alloc)?;
        self.put_found(alloc, name, kind, bytes)
    }

    /// The same, by the order that is kept.
    fn put_found(
        &mut self,
        alloc: Global,
        name: Units,
        kind: u32,
        bytes: Bytes,
    ) -> Result<(), AllocError>
        ensures { OnOk result (self.new ≡ with_item name kind bytes self.old) }
    {
        match self.place(name.as_slice()) {
            Some(at) => {
                let value = &mut self.items[at];
                value.kind = kind;
                value.bytes = bytes;
                Ok(())
            }
            None => self.add(alloc, Value { name, kind, bytes }),
        }
    }

    /// Adds a value as the last, whose name no other has.
    fn add(&mut self, alloc: Global, value: Value) -> Result<(), AllocError>
        requires { position (is_item value.name) self.old ≡ None }
        ensures { OnOk result (self.new ≡ self.old ++ value ∷ []) }
    {
        let order = replace(&mut self.order, Vec::new(alloc));
        let order = order_with(self.items.as_slice(), order, value.name())?;
        self.items.push(value)?;
        self.order = order;
        Ok(())
    }

    /// Makes the order where none is kept and one serves.
    fn make_order(&mut self, alloc: Global) -> Result<(), AllocError>
        ensures { self.new ≡ self.old }
    {
        if !self.order.is_empty() || !self.orderly || self.items.len() < SOME {
            return Ok(());
        }
        let order = order_of(alloc, self.items.as_slice())?;
        self.orderly = !order.is_empty();
        self.order = order;
        Ok(())
    }

    /// Takes out the first value with this name.
    pub(crate) fn remove(&mut self, name: &[u16])
        ensures { self.new ≡ without_first (is_item name.now) self.old }
    {
        if let Some(at) = self.place(name) {
            let _gone = self.items.remove(at);
            close_up(&mut self.order, at);
        }
    }
}

impl Keys {
    /// Where the first child with this name stands.
    pub(crate) fn place(&self, name: &[u16]) -> Option<usize>
        ensures { result ≡ position (is_named name.now) self.now }
    {
        named_place(self.items.as_slice(), self.rising, name)
    }

    /// Puts a key before the first one that folds greater, else after all.
    pub(crate) fn insert(&mut self, key: Key) -> Result<(), AllocError>
        ensures { OnOk result (self.new ≡ placed key self.old) }
    {
        let at = gap(self.items.as_slice(), self.rising, key.name());
        self.items.insert(at, key)?;
        Ok(())
    }

    /// Takes out the first child with this name, with all below it.
    pub(crate) fn remove(&mut self, name: &[u16])
        ensures { self.new ≡ without_first (is_named name.now) self.old }
    {
        if let Some(at) = self.place(name) {
            let _gone = self.items.remove(at);
        }
    }
}
