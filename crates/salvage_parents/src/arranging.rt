//! Keys in the order of their folded names.

ghost use Rattle.std.specs.Prelude.{◌≡◌, IfOk, OnOk};
ghost use Rattle.std.specs.Map.{values_of};
ghost use Rattle.salvage_parents.specs.Arranged.{arranged, put_by_name};
ghost use Rattle.salvage_parents.specs.Named.{AreByName};

use nt_names::name_places::folded;
use reg_tree::{Key, Keys};
use std::alloc::{AllocError, Global};
use std::collections::BTreeMap;

// Puts a key among others under its folded name.
fn put(alloc: Global, named: &mut BTreeMap<Vec<u16>, Key>, key: Key) -> Result<(), AllocError>
    requires { AreByName named.old.entries }
    ensures put { OnOk result (values_of named.new.entries ≡ put_by_name key (values_of named.old.entries)) }
    ensures named { OnOk result (AreByName named.new.entries) }
{
    let name = folded(alloc, key.name.as_slice())?;
    named.insert(name.into_vec(), key)?;
    Ok(())
}

// Keys by their folded names.
#[tactic(auto, using(crate::proofs::NamedLemmas::arranging))]
fn by_name(alloc: Global, keys: Keys) -> Result<BTreeMap<Vec<u16>, Key>, AllocError>
    ensures { IfOk result (λ m. values_of m.entries ≡ arranged keys) }
{
    let mut named = BTreeMap::new(alloc);
    let mut rest = keys.into_vec().into_iter();
    'keys: while let Some(key) = rest.next() {
        put(alloc, &mut named, key)?;
    }
    Ok(named)
}

/// Keys in the order of their folded names.
pub(crate) fn arrange(alloc: Global, keys: Keys) -> Result<Keys, AllocError>
    ensures { IfOk result (λ ks. ks ≡ arranged keys) }
{
    let named = by_name(alloc, keys)?;
    let mut keys = Keys::new(alloc);
    let mut rest = named.into_values();
    'keys: while let Some(key) = rest.next() {
        keys.push(key)?;
    }
    Ok(keys)
}
