//! The set that a start took.

ghost use Rattle.std.specs.Prelude.{◌≡◌, IfOk};
ghost use Rattle.std.specs.Option.{unwrap_or};
ghost use Rattle.hive_model.specs.Valid.{HoldsKeys, IsValid};
ghost use Rattle.select_keys.specs.Sets.{usable_set};
ghost use Rattle.start_model.specs.Sets.{is_usable};
ghost use Rattle.start_model.specs.Starter.{no_set, good_is_usable};
ghost use Rattle.quiet_run.specs.Play.{IsSetNumber, set_in};

use nt_bytes::{Bytes, Units};
use reg_tree::{Key, Keys, Values};
use select_keys::{select_numbers, set_of};
use std::alloc::{AllocError, Global};

/// A key with nothing.
pub(crate) fn no_set(alloc: Global) -> Result<Key, AllocError>
    ensures set { IfOk result (λ set. set ≡ no_set) }
    ensures held { IfOk result HoldsKeys }
{
    Ok(Key {
        name: Units::new(alloc),
        flags: 0,
        stamp: 0,
        class: Bytes::new(alloc),
        security: Bytes::new(alloc),
        values: Values::new(alloc),
        children: Keys::new(alloc),
    })
}

/// The set of this number from 1 to 999, where the tree has it; else a key with nothing.
pub(crate) fn usable_set(alloc: Global, tree: &Key, number: u32) -> Result<Key, AllocError>
    requires { IsValid tree.now }
    ensures set { IfOk result (λ set. set ≡ unwrap_or (usable_set tree.now number) no_set) }
    ensures held { IfOk result HoldsKeys }
{
    match set_of(tree, number) {
        Some(set) => set.copy(alloc),
        None => no_set(alloc),
    }
}

/// The set of a number.
#[tactic(auto, using(crate::proofs::SetLemmas::usable_is_set))]
pub(crate) fn set_in(alloc: Global, tree: &Key, number: u32) -> Result<Key, AllocError>
    requires valid { IsValid tree.now }
    requires number { IsSetNumber number }
    ensures set { IfOk result (λ set. set ≡ set_in tree.now number) }
    ensures held { IfOk result HoldsKeys }
{
    usable_set(alloc, tree, number)
}

/// Whether LastKnownGood names a set.
pub(crate) fn good_is_usable(tree: &Key) -> bool
    requires { IsValid tree.now }
    ensures { result ≡ good_is_usable tree.now }
{
    let numbers = select_numbers(tree);
    is_usable(tree, numbers.good)
}

/// Whether the number names a set.
fn is_usable(tree: &Key, number: u32) -> bool
    requires { IsValid tree.now }
    ensures { result ≡ is_usable tree.now number }
{
    set_of(tree, number).is_some()
}
