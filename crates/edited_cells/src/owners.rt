//! Which key a cell belongs to.

ghost use Rattle.std.specs.Prelude.{◌≡◌, ◌⊎◌, ℕ, List, Ok};
ghost use Rattle.hive_model.specs.Bins.{Cells};
ghost use Rattle.hive_model.specs.Tree.{Tree};
ghost use Rattle.hive_model.specs.Stands.{IsWellFormed};
ghost use Rattle.edited_cells.specs.Owned.{Role, Owns, IsSecurity};
ghost use Rattle.edited_cells.specs.Sound.{IsSoundHive};

/// In well-formed cells two keys that own one cell are one, and own it in one role, or both own it as security.
pub fn each_cell_has_one_owner()
    ensures { (cells : Cells) (root : ℕ) (t : Tree) → IsWellFormed cells root t → (p q : List (List ℕ)) (r k : Role) (o : ℕ)
        → Owns cells root p r o → Owns cells root q k o → ((p ≡ q) × (r ≡ k)) ⊎ (IsSecurity r × IsSecurity k) }
{}

/// Well-formed cells are sound: names tell children and values apart, and there are at most 512 levels. Each cell that a key
/// owns is allocated.
pub fn owned_cells_are_allocated()
    ensures sound { (cells : Cells) (root : ℕ) (t : Tree) → IsWellFormed cells root t → IsSoundHive cells root }
    ensures allocated { (cells : Cells) (root : ℕ) (t : Tree) → IsWellFormed cells root t → (p : List (List ℕ)) (r : Role) (o : ℕ)
        → Owns cells root p r o → (q : List ℕ) × (cells.payload o ≡ Ok q) }
{}
