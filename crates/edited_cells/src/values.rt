//! A value set or deleted, from what the cells show.

ghost use Rattle.std.specs.Prelude.{◌≡◌, ◌<◌, ◌^◌, ℕ, false, true, List, [], ◌∷◌, find, Some, Ok};
ghost use Rattle.nt_bytes.specs.Folding.{folds_same};
ghost use Rattle.hive_model.specs.Bins.{Cells};
ghost use Rattle.hive_model.specs.KeyNode.{KeyNode, key_node_at};
ghost use Rattle.hive_model.specs.KeyValue.{KeyValue, key_value_at, data_inside, is_overfull};
ghost use Rattle.hive_model.specs.Tree.{Tree};
ghost use Rattle.hive_model.specs.Edit.{set_value, delete_value, has_item, after_step};
ghost use Rattle.hive_model.specs.Footprint.{key_place, is_value_named};
ghost use Rattle.hive_model.specs.Stands.{IsWellFormed};
ghost use Rattle.edited_cells.specs.Owned.{value_name, value_places};
ghost use Rattle.edited_cells.specs.Revalues.{ChangesValues};
ghost use Rattle.edited_cells.specs.Done.{item, IsDone};
ghost use Rattle.edited_cells.specs.Written.{with_part, two_numbers, three_numbers, HasNewValues};

/// A value that is there gets another type and other data, in the cells where it stood or in others.
pub fn a_value_is_set()
    ensures { (b c : Cells) (root : ℕ) (t u : Tree) (path : List (List ℕ)) (name : List ℕ) (kind : ℕ) (bytes : List ℕ) (x v : ℕ) (front put back : List ℕ)
        → IsWellFormed b root t → after_step (set_value path name kind bytes) t ≡ Ok u → key_place b path root ≡ Some x
        → folds_same name (value_name b v) ≡ true
        → ChangesValues b c x front (v ∷ []) put back (item (value_name b v) kind bytes ∷ []) → IsDone b c root t u (set_value path name kind bytes) }
{}

/// A value whose data it then holds itself is set by twelve bytes of its own cell.
pub fn a_value_is_set_in_place()
    ensures { (b c : Cells) (root : ℕ) (t u : Tree) (path : List (List ℕ)) (name : List ℕ) (kind : ℕ) (bytes : List ℕ) (x v size offset : ℕ) (p : List ℕ)
        → IsWellFormed b root t → after_step (set_value path name kind bytes) t ≡ Ok u → key_place b path root ≡ Some x
        → find (is_value_named b name) (value_places b x) ≡ Some v → b.payload v ≡ Ok p → c.version ≡ b.version
        → c.payload v ≡ Ok (with_part 4 (three_numbers size offset kind) p) → ((o : ℕ) (q : List ℕ) → b.payload o ≡ Ok q → (o ≡ v → ⊥) → c.payload o ≡ Ok q)
        → size < 2 ^ 32 → offset < 2 ^ 32 → kind < 2 ^ 32 → is_overfull size ≡ false
        → ((value : KeyValue) → data_inside (record value { size = size; offset = offset; kind = kind }) ≡ Some bytes)
        → IsDone b c root t u (set_value path name kind bytes) }
{}

/// A value of a name that none of the key's has comes last.
pub fn a_value_of_a_new_name_is_set()
    ensures { (b c : Cells) (root : ℕ) (t u : Tree) (path : List (List ℕ)) (name : List ℕ) (kind : ℕ) (bytes : List ℕ) (x : ℕ) (front put : List ℕ)
        → IsWellFormed b root t → after_step (set_value path name kind bytes) t ≡ Ok u → key_place b path root ≡ Some x → has_item path name t ≡ false
        → ChangesValues b c x front [] put [] (item name kind bytes ∷ []) → IsDone b c root t u (set_value path name kind bytes) }
{}

/// A value goes with its cells, and the list names the others.
pub fn a_value_is_deleted()
    ensures { (b c : Cells) (root : ℕ) (t u : Tree) (path : List (List ℕ)) (name : List ℕ) (x v : ℕ) (front back : List ℕ)
        → IsWellFormed b root t → after_step (delete_value path name) t ≡ Ok u → key_place b path root ≡ Some x → folds_same name (value_name b v) ≡ true
        → ChangesValues b c x front (v ∷ []) [] back [] → IsDone b c root t u (delete_value path name) }
{}

/// Where the size, place and type of a value are written over, or how many values a key has and where their list is, these
/// are read, and all else is read as it was.
pub fn numbers_are_written_over()
    ensures value { (p : List ℕ) (v : KeyValue) (size offset kind : ℕ) → key_value_at p ≡ Ok v → size < 2 ^ 32 → offset < 2 ^ 32 → kind < 2 ^ 32
        → is_overfull size ≡ false → key_value_at (with_part 4 (three_numbers size offset kind) p)
        ≡ Ok (record v { size = size; offset = offset; kind = kind }) }
    ensures node { (p : List ℕ) (n : KeyNode) (count list : ℕ) → key_node_at p ≡ Ok n → count < 2 ^ 32 → list < 2 ^ 32
        → HasNewValues (with_part 36 (two_numbers count list) p) n count list }
{}
