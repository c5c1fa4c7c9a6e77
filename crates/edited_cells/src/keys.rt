//! Keys made, added, copied and deleted, from what the cells show.

ghost use Rattle.std.specs.Prelude.{◌≡◌, ◌≤◌, ◌+◌, ℕ, suc, false, List, [], ◌∷◌, ◌++◌, length, find, Some, Ok};
ghost use Rattle.hive_model.specs.Bins.{Cells};
ghost use Rattle.hive_model.specs.Tree.{Tree, children, is_named, find_key};
ghost use Rattle.hive_model.specs.Edit.{make_key, delete_key, copy_child, add_child, new_key, renamed, after_step};
ghost use Rattle.hive_model.specs.Valid.{levels};
ghost use Rattle.hive_model.specs.Footprint.{key_place, has_key, security_cell_at};
ghost use Rattle.hive_model.specs.Stands.{Stands, HasApartNames, IsWellFormed};
ghost use Rattle.edited_cells.specs.Owned.{In, Extends, Owns, security};
ghost use Rattle.edited_cells.specs.Relists.{ChangesChildren, HasPlace, Deletes};
ghost use Rattle.edited_cells.specs.Done.{IsDone};

/// A key is made where there is none of its name: it stands before the first sibling whose name folds greater, else last.
pub fn a_key_is_made()
    ensures { (b c : Cells) (root : ℕ) (t u k : Tree) (parent : List (List ℕ)) (name : List ℕ) (x y left : ℕ) (front back counted : List ℕ)
        → IsWellFormed b root t
        → after_step (make_key parent name) t ≡ Ok u → has_key parent name t ≡ false → key_place b parent root ≡ Some x → find_key parent t ≡ Some k
        → length parent + suc left ≡ 512 → ChangesChildren b c root x left front [] (y ∷ []) back counted
        → ((o : ℕ) → In counted o → In (security_cell_at b x) o)
        → Stands c y (new_key name k) → HasPlace b name front back → IsDone b c root t u (make_key parent name) }
{}

/// A key is added under a name that no child of the root has.
pub fn a_child_is_added()
    ensures { (b c : Cells) (root : ℕ) (t u k : Tree) (name : List ℕ) (y : ℕ) (front back counted : List ℕ) → IsWellFormed b root t
        → after_step (add_child name k) t ≡ Ok u → HasApartNames k → ChangesChildren b c root root 511 front [] (y ∷ []) back counted
        → ((o : ℕ) → In counted o → In (security_cell_at b root) o) → Stands c y (renamed name k) → HasPlace b name front back
        → IsDone b c root t u (add_child name k) }
{}

/// A child of the root is copied under a name that none has.
pub fn a_child_is_copied()
    ensures { (b c : Cells) (root : ℕ) (t u k : Tree) (from to : List ℕ) (y : ℕ) (front back counted : List ℕ) → IsWellFormed b root t
        → after_step (copy_child from to) t ≡ Ok u → find (is_named from) (children t) ≡ Some k → HasApartNames k → levels k ≤ 511
        → ChangesChildren b c root root 511 front [] (y ∷ []) back counted
        → ((o : ℕ) → In counted o → (q : List (List ℕ)) × Extends (from ∷ []) q × Owns b root q security o)
        → Stands c y (renamed to k) → HasPlace b to front back → IsDone b c root t u (copy_child from to) }
{}

/// A key is deleted with all below it.
pub fn a_key_is_deleted()
    ensures { (b c : Cells) (root : ℕ) (t u : Tree) (parent : List (List ℕ)) (name : List ℕ) (x y left : ℕ) (front back counted : List ℕ)
        → IsWellFormed b root t
        → after_step (delete_key (parent ++ name ∷ [])) t ≡ Ok u → key_place b parent root ≡ Some x → length parent + suc left ≡ 512
        → Deletes b root parent name y counted → ChangesChildren b c root x left front (y ∷ []) [] back counted
        → IsDone b c root t u (delete_key (parent ++ name ∷ [])) }
{}
