//! Keys taken apart.

ghost use Rattle.std.specs.Prelude.{◌≡◌};
ghost use Rattle.hive_model.specs.Tree.{head, children};
ghost use Rattle.device_rule.specs.Values.{children_of};

use nt_bytes::Units;
use reg_tree::Key;
use std::alloc::Global;

/// The name of a key, and its children. Nothing is copied.
#[tactic(auto, using(reg_tree::proofs::Trees::listed_trees))]
pub(crate) fn parted(key: Key) -> (Units, Vec<Key>)
    ensures name { result.0 ≡ (head key).name }
    ensures keys { result.1.items ≡ children key }
{
    let name = key.name;
    (name, key.children.into_vec())
}

/// The children of a key, where it is there. Nothing is copied.
pub(crate) fn children_of(alloc: Global, key: Option<Key>) -> Vec<Key>
    ensures { result.items ≡ children_of key }
{
    match key {
        Some(key) => parted(key).1,
        None => Vec::new(alloc),
    }
}
