//! Keys with all below them.

ghost use Rattle.std.specs.Prelude.{◌≡◌, [], ◌∷◌, ◌++◌, length, OnOk, OnErr};

use crate::halves::still_rising;
use crate::value::Values;
use nt_bytes::{Bytes, Units};
use std::alloc::{AllocError, Global};
use std::marker::Model;

/// A key with all below it.
#[cycle(key)]
#[derive(Drop)]
pub struct Key {
    pub name: Units,
    pub flags: u16,
    /// When the key was last written, in units of 100 ns since 1601.
    pub stamp: u64,
    pub class: Bytes,
    pub security: Bytes,
    pub values: Values,
    pub children: Keys,
}

/// The children of a key, in order.
#[cycle(key)]
#[derive(Drop)]
pub struct Keys {
    pub(crate) items: Vec<Key>,
    /// Whether the names are known to rise, so that one is found by binary search. A hive may have others.
    pub(crate) rising: bool,
}

impl Model for Key {
    ghost use Rattle.hive_model.specs.Tree.{Tree, key, trees};
    ghost use Rattle.hive_model.specs.Codes.{coded_tree, weight, weights-trees};
    ghost use Rattle.std.proofs.Common.{arith};

    ghost Value = { Tree };

    ghost coded = { coded_tree };

    ghost view = { λ a. key (record {
      name = a.name;
      flags = a.flags;
      stamp = a.stamp;
      class = a.class;
      security = a.security;
      values = a.values;
    }) (trees a.children) };

    ghost size = { weight };

    ghost size_decreases = { λ a h. Prim.omega (arith, weights-trees a.children) };
}

impl Model for Keys {
    ghost use Rattle.std.specs.Prelude.{IsTrue, List};
    ghost use Rattle.std.proofs.Common.{arith};
    ghost use Rattle.hive_model.specs.Tree.{Tree};
    ghost use Rattle.hive_model.specs.Codes.{coded_trees, weights, most_le-weights};
    ghost use Rattle.reg_tree.specs.Rising.{AreRising};

    ghost Value = { List Tree };

    ghost coded = { coded_trees };

    ghost view = { λ a. a.items.items };

    ghost invariant = { λ a. IsTrue a.rising → AreRising a.items.items };

    ghost size = { weights };

    ghost size_decreases = { λ a h. Prim.omega (arith, most_le-weights a.items.items) };
}

impl Keys {
    pub fn new(alloc: Global) -> Keys
        ensures { result ≡ [] }
    {
        Keys {
            items: Vec::new(alloc),
            rising: true,
        }
    }

    pub fn push(&mut self, child: Key) -> Result<(), AllocError>
        ensures ok { OnOk result (self.new ≡ self.old ++ child ∷ []) }
        ensures err { OnErr result (self.new ≡ self.old) }
    {
        let rising = still_rising(self.items.as_slice(), self.rising, &child);
        self.items.push(child)?;
        self.rising = rising;
        Ok(())
    }

    pub fn as_slice(&self) -> &[Key]
        ensures { result.now ≡ self.now }
    {
        self.items.as_slice()
    }

    /// The keys by themselves. Nothing is copied.
    pub fn into_vec(self) -> Vec<Key>
        ensures { result.items ≡ self }
    {
        self.items
    }

    pub fn len(&self) -> usize
        ensures { result ≡ length self.now }
    {
        self.items.len()
    }
}
