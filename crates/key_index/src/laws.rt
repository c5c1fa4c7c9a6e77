//! Where what a search and a change ask of lists is met.

ghost use Rattle.std.specs.Prelude.{◌≡◌, ℕ, Ok};
ghost use Rattle.hive_model.specs.Bins.{Cells};
ghost use Rattle.hive_model.specs.KeyNode.{KeyNode, key_node_at};
ghost use Rattle.hive_model.specs.Tree.{Tree};
ghost use Rattle.hive_model.specs.Walk.{reading, entries_checks, AreUsedOnce};
ghost use Rattle.hive_model.specs.Stands.{Stands, HasApartNames};
ghost use Rattle.key_index.specs.Lists.{ListsSiblings, lists_at};
ghost use Rattle.key_index.specs.Relists.{AreApart};

/// The lists of a key that is in cells, its own or one below, stand for its children.
pub fn keys_list_siblings()
    ensures { (cells : Cells) (at : ℕ) (t : Tree) (node : KeyNode) → Stands cells at t → HasApartNames t → reading key_node_at cells at ≡ Ok node
        → ListsSiblings cells node.child_list node.child_count }
{}

/// No two cells of lists are one, where the walk over them uses each cell once.
pub fn lists_are_apart()
    ensures { (cells : Cells) (list count : ℕ) → AreUsedOnce (entries_checks cells list) → AreApart (lists_at cells list count) }
{}
