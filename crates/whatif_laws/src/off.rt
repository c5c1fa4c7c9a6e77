//! What it means that an entry is off.

ghost use Rattle.std.specs.Prelude.{◌≡◌, ℕ, List, [], ◌∷◌, Some, Ok, codes};
ghost use Rattle.std.specs.Int.{w32, to_le_bytes};
ghost use Rattle.hive_model.specs.Tree.{Item, Tree, find_item, find_key};
ghost use Rattle.hive_model.specs.Edit.{value_set};
ghost use Rattle.failure_effects.specs.Switching.{off_set};

/// Where the set has a key of this name with a value `Start`, as each entry is, the set with the entry off is what the edit makes of it
/// that sets that value to the DWORD 4.
pub fn an_entry_that_is_off_has_start_four()
    ensures { (set : Tree) (name : List ℕ) (k : Tree) (v : Item) → find_key (codes "Services" ∷ name ∷ []) set ≡ Some k → find_item (codes "Start") k ≡ Some v
        → value_set (codes "Services" ∷ name ∷ []) (codes "Start") 4 (to_le_bytes w32 4) set ≡ Ok (off_set name set) }
{}
