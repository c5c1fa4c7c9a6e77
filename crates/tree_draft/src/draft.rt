//! Keys that steps go through.

ghost use Rattle.std.specs.Prelude.{◌≡◌, [], IfOk};

use crate::stop::DraftStop;
use crate::values::DraftValues;
use nt_bytes::{Bytes, Units};
use reg_tree::{Key, Keys};
use std::alloc::{AllocError, Global};
use std::collections::BTreeMap;
use std::marker::Model;

/// A key with all below it, opened as far as steps went.
#[cycle(draft)]
#[derive(Drop)]
pub(crate) struct Draft {
    pub(crate) name: Units,
    pub(crate) flags: u16,
    pub(crate) stamp: u64,
    pub(crate) class: Bytes,
    pub(crate) security: Bytes,
    pub(crate) values: DraftValues,
    pub(crate) children: DraftKeys,
}

/// The children of a key: as they were until a step goes through one, and then by their folded names.
#[cycle(draft)]
#[derive(Drop)]
pub(crate) struct DraftKeys {
    pub(crate) kept: Keys,
    pub(crate) named: BTreeMap<Vec<u16>, Draft>,
}

impl Model for Draft {
    ghost use Rattle.hive_model.specs.Tree.{Tree, key, trees};
    ghost use Rattle.hive_model.specs.Codes.{coded_tree, weight, weights-trees};
    ghost use Rattle.tree_draft.specs.Values.{values_in};
    ghost use Rattle.std.proofs.Common.{arith};

    ghost Value = { Tree };

    ghost coded = { coded_tree };

    ghost view = { λ a. key (record {
      name = a.name;
      flags = a.flags;
      stamp = a.stamp;
      class = a.class;
      security = a.security;
      values = values_in a.values;
    }) (trees a.children) };

    ghost size = { weight };

    ghost size_decreases = { λ a h. Prim.omega (arith, weights-trees a.children) };
}

impl Model for DraftKeys {
    ghost use Rattle.std.specs.Prelude.{◌++◌, List};
    ghost use Rattle.std.specs.Map.{values_of};
    ghost use Rattle.std.proofs.Common.{arith};
    ghost use Rattle.hive_model.specs.Tree.{Tree};
    ghost use Rattle.hive_model.specs.Codes.{coded_trees, weights};
    ghost use Rattle.tree_draft.specs.Children.{AreKept, most_le-opened};

    ghost Value = { List Tree };

    ghost coded = { coded_trees };

    ghost view = { λ a. a.kept ++ values_of a.named.entries };

    ghost invariant = { λ a. AreKept a.kept a.named.entries };

    ghost size = { weights };

    ghost size_decreases = { λ a h. Prim.omega (arith, most_le-opened a.kept a.named.entries) };
}

impl Draft {
    /// A key that no step went through. Nothing is copied.
    pub(crate) fn of(alloc: Global, key: Key) -> Draft
        ensures { result ≡ key }
    {
        Draft {
            name: key.name,
            flags: key.flags,
            stamp: key.stamp,
            class: key.class,
            security: key.security,
            values: DraftValues::Kept(key.values),
            children: DraftKeys::of(alloc, key.children),
        }
    }

    /// The key as it is now.
    #[cycle(closed)]
    pub(crate) fn closed(self, alloc: Global) -> Result<Key, AllocError>
        ensures { IfOk result (λ k. k ≡ self) }
    {
        Ok(Key {
            name: self.name,
            flags: self.flags,
            stamp: self.stamp,
            class: self.class,
            security: self.security,
            values: self.values.closed(alloc)?,
            children: self.children.closed(alloc)?,
        })
    }
}

impl DraftKeys {
    /// No children.
    pub(crate) fn none(alloc: Global) -> DraftKeys
        ensures { result ≡ [] }
    {
        DraftKeys::of(alloc, Keys::new(alloc))
    }

    /// Children that no step went through.
    fn of(alloc: Global, kept: Keys) -> DraftKeys
        ensures { result ≡ kept }
    {
        DraftKeys {
            kept,
            named: BTreeMap::new(alloc),
        }
    }

    /// The children as they are now.
    #[cycle(closed)]
    fn closed(self, alloc: Global) -> Result<Keys, AllocError>
        ensures { IfOk result (λ k. k ≡ self) }
    {
        let mut closed = self.kept;
        let mut rest = self.named.into_values();
        'keys: while let Some(key) = rest.next() {
            closed.push(key.closed(alloc)?)?;
        }
        Ok(closed)
    }
}
