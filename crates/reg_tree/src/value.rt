//! Values of a key.

ghost use Rattle.std.specs.Prelude.{◌≡◌, [], ◌∷◌, ◌++◌, length, OnOk, OnErr};

use nt_bytes::{Bytes, Units};
use std::alloc::{AllocError, Global};
use std::marker::Model;

/// A named value: its type and its data.
#[derive(Drop)]
pub struct Value {
    pub name: Units,
    pub kind: u32,
    pub bytes: Bytes,
}

impl Model for Value {
    ghost use Rattle.hive_model.specs.Tree.{Item};
    ghost use Rattle.hive_model.specs.Codes.{coded_item};

    ghost Value = { Item };

    ghost coded = { coded_item };

    ghost view = { λ a. record { name = a.name; kind = a.kind; bytes = a.bytes } };
}

/// The values of a key, in order.
#[derive(Drop)]
pub struct Values {
    pub(crate) items: Vec<Value>,
    /// The places of the values by the folded order of their names, or none where no order is kept.
    pub(crate) order: Vec<usize>,
    /// Whether an order is to be made where none is kept.
    pub(crate) orderly: bool,
}

impl Model for Values {
    ghost use Rattle.std.specs.Prelude.{◌<◌, List, length};
    ghost use Rattle.hive_model.specs.Tree.{Item};
    ghost use Rattle.hive_model.specs.Codes.{coded_items};
    ghost use Rattle.reg_tree.specs.Order.{IsOrderOf};

    ghost Value = { List Item };

    ghost coded = { coded_items };

    ghost view = { λ a. a.items.items };

    ghost invariant = { λ a. 0 < length a.order.items → IsOrderOf a.items.items a.order.items };
}

impl Values {
    pub fn new(alloc: Global) -> Values
        ensures { result ≡ [] }
    {
        Values {
            items: Vec::new(alloc),
            order: Vec::new(alloc),
            orderly: true,
        }
    }

    pub fn push(&mut self, value: Value) -> Result<(), AllocError>
        ensures ok { OnOk result (self.new ≡ self.old ++ value ∷ []) }
        ensures err { OnErr result (self.new ≡ self.old) }
    {
        self.order.clear();
        self.items.push(value)?;
        Ok(())
    }

    pub fn as_slice(&self) -> &[Value]
        ensures { result.now ≡ self.now }
    {
        self.items.as_slice()
    }

    /// The values by themselves. Nothing is copied.
    pub fn into_vec(self) -> Vec<Value>
        ensures { result.items ≡ self }
    {
        self.items
    }

    pub fn len(&self) -> usize
        ensures { result ≡ length self.now }
    {
        self.items.len()
    }
}
