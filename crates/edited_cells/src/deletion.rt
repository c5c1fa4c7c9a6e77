//! A key that goes from the cells, step by step.

ghost use Rattle.std.specs.Prelude.{◌≡◌, ◌+◌, ◌-◌, ℕ, suc, true, List, [], ◌∷◌, ◌++◌, length, Some, Ok};
ghost use Rattle.nt_bytes.specs.Folding.{folds_same};
ghost use Rattle.hive_model.specs.Bins.{Cells};
ghost use Rattle.nt_bytes.specs.declared.version.HiveVersion.{HiveVersion as Version};
ghost use Rattle.hive_model.specs.Tree.{Tree, Trees, Head};
ghost use Rattle.hive_model.specs.Size.{list_size, count, size};
ghost use Rattle.hive_model.specs.Edit.{delete_key, after_step, without_key};
ghost use Rattle.hive_model.specs.KeyNode.{KeyNode};
ghost use Rattle.hive_model.specs.Footprint.{key_place, list_strain_of, strain_of};
ghost use Rattle.hive_model.specs.Stands.{IsWellFormed};
ghost use Rattle.edited_cells.specs.Owned.{node_name};
ghost use Rattle.edited_cells.specs.Takes.{TakesChild};
ghost use Rattle.edited_cells.specs.Done.{IsDone};
ghost use Rattle.edited_cells.specs.Lessened.{HasChildThere};

/// A key is deleted where the lists of the key above were rewritten without it, the node above counts the others and names
/// these lists, and what it and the keys below it used may be free, but for cells of security, which keep their descriptors.
pub fn a_key_is_taken_out()
    ensures { (b l c : Cells) (root : ℕ) (t u : Tree) (parent : List (List ℕ)) (name : List ℕ) (x y left list : ℕ) (n : KeyNode) (front back : List ℕ)
        → IsWellFormed b root t → after_step (delete_key (parent ++ name ∷ [])) t ≡ Ok u → key_place b parent root ≡ Some x → length parent + suc left ≡ 512
        → folds_same name (node_name b y) ≡ true → TakesChild b l c x left n front back y list → IsDone b c root t u (delete_key (parent ++ name ∷ [])) }
{}

/// A tree without a key is smaller by the key with all below it, and by what the lists that named it are shorter. Its step needs
/// room for the lists of the other children alone.
pub fn a_key_takes_its_size_along()
    ensures size { (version : Version) (shared : List ℕ) (t : Tree) (parent : List (List ℕ)) (name : List ℕ) (h : Head) (ts : Trees) (k : Tree)
        → HasChildThere t parent name h ts k
        → size version shared (without_key (parent ++ name ∷ []) t) + (list_size (count ts) + size version h.security k)
        ≡ size version shared t + list_size (count ts - 1) }
    ensures strain { (version : Version) (bytes : ℕ) (t : Tree) (parent : List (List ℕ)) (name : List ℕ) (h : Head) (ts : Trees) (k : Tree)
        → HasChildThere t parent name h ts k
        → strain_of version bytes t (delete_key (parent ++ name ∷ []) ∷ []) ≡ list_strain_of bytes (count ts - 1) }
{}
