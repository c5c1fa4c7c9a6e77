//! Which names siblings, or the values of a key, have so far.

ghost use Rattle.std.specs.Prelude.{◌≡◌, [], ◌∷◌, ◌++◌, OnOk, OnErr, IfOk};
ghost use Rattle.std.specs.List.{list_any};
ghost use Rattle.std.specs.Ordering.{nat_cmp};
ghost use Rattle.std.specs.Cmp.Lexicographic.{slice_cmp};
ghost use Rattle.std.specs.BTreeSet.{insert_key};
ghost use Rattle.nt_bytes.specs.Folding.{folded, folds_same};

use nt_bytes::{Units, fold};
use std::alloc::{AllocError, Global};
use std::collections::BTreeSet;
use std::marker::Model;

/// Names in order, and beside them an ordered set of what they fold to, in which one is looked for.
#[derive(Drop)]
pub struct NameSet {
    names: Vec<Units>,
    keys: BTreeSet<Vec<u16>>,
}

impl Model for NameSet {
    ghost use Rattle.std.specs.Prelude.{ℕ, List, map};
    ghost use Rattle.salvage_walk.specs.Folded.{AreKeysOf};

    ghost Value = { List (List ℕ) };

    ghost view = { λ a. a.names.items };

    ghost invariant = { λ a. AreKeysOf (map (λ v. v.items) a.keys.keys) a.names.items };
}

// A name with each unit folded.
fn key_of(alloc: Global, name: &[u16]) -> Result<Vec<u16>, AllocError>
    ensures { IfOk result (λ v. v.items ≡ folded name.now) }
{
    name.iter().map(|u| fold(*u)).collect(alloc)
}

// Adds a name and what it folds to. Without memory for both neither is added.
fn put(
    names: &mut Vec<Units>,
    keys: &mut BTreeSet<Vec<u16>>,
    name: Units,
    key: Vec<u16>,
) -> Result<(), AllocError>
    ensures named { OnOk result (names.new.items ≡ names.old.items ++ name ∷ []) }
    ensures keyed { OnOk result (keys.new.keys ≡ insert_key (λ x y. slice_cmp nat_cmp x.items y.items) keys.old.keys key) }
    ensures names_before { OnErr result (names.new.items ≡ names.old.items) }
    ensures keys_before { OnErr result (keys.new.keys ≡ keys.old.keys) }
{
    names.push(name)?;
    match keys.insert(key) {
        Ok(_) => Ok(()),
        Err(_) => {
            let _last = names.pop();
            Err(AllocError)
        }
    }
}

impl NameSet {
    #[tactic(auto, using(crate::proofs::NameLemmas::keyed))]
    pub(crate) fn new(alloc: Global) -> NameSet
        ensures { result ≡ [] }
    {
        NameSet {
            names: Vec::new(alloc),
            keys: BTreeSet::new(alloc),
        }
    }

    /// Is there a name that folds alike?
    pub(crate) fn has(&self, alloc: Global, name: &[u16]) -> Result<bool, AllocError>
        ensures { IfOk result (λ has. has ≡ list_any (folds_same name.now) self.now) }
    {
        let key = key_of(alloc, name)?;
        Ok(self.keys.contains(&key))
    }

    /// Adds a name.
    pub(crate) fn add(&mut self, alloc: Global, name: Units) -> Result<(), AllocError>
        ensures { OnOk result (self.new ≡ self.old ++ name ∷ []) }
    {
        let key = key_of(alloc, name.as_slice())?;
        put(&mut self.names, &mut self.keys, name, key)
    }
}
