//! The control sets of a tree.

ghost use Rattle.std.specs.Prelude.{◌≡◌, IfSome};
ghost use Rattle.std.specs.Option.{option_copied};
ghost use Rattle.hive_model.specs.Valid.{HoldsKeys};
ghost use Rattle.start_model.specs.Sets.{select_numbers_of};
ghost use Rattle.select_keys.specs.Sets.{usable_set};

use crate::name::set_units;
use crate::numbers::{SelectNumbers, read_select};
use nt_names::startup_names::SELECT;
use reg_tree::Key;

/// The four numbers of the tree's key `Select`, each 0 where it is absent or no DWORD.
pub fn select_numbers(root: &Key) -> SelectNumbers
    ensures { result ≡ select_numbers_of root.now }
{
    read_select(root.child(&SELECT))
}

/// The set of a number, where that is from 1 to 999 and the root has the set. It takes no memory.
#[tactic(auto, using(hive_model::proofs::HeldLemmas::held_child))]
pub fn set_of(root: &Key, number: u32) -> Option<&Key>
    requires { HoldsKeys root.now }
    ensures exact { option_copied result ≡ usable_set root.now number }
    ensures held { IfSome result (λ set. HoldsKeys set.now) }
{
    if number < 1 || 999 < number {
        return None;
    }
    root.child(&set_units(number))
}
