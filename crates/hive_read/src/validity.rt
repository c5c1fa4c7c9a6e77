//! What is in well-formed cells can be held by a hive.

ghost use Rattle.std.specs.Prelude.{ℕ};
ghost use Rattle.hive_model.specs.Bins.{Cells};
ghost use Rattle.hive_model.specs.Tree.{Tree};
ghost use Rattle.hive_model.specs.Valid.{IsValid};
ghost use Rattle.hive_model.specs.Stands.{IsWellFormed};
ghost use Rattle.hive_read.specs.Payloads.{HaveBytes};

/// A tree that is in well-formed cells of bytes is one that a hive can hold. Cells of greater
/// numbers could give a length that is more than a field has room for.
pub fn a_well_formed_tree_is_valid()
    ensures { (cells : Cells) (root : ℕ) (t : Tree) → HaveBytes cells → IsWellFormed cells root t → IsValid t }
{}
