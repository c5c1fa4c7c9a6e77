//! Words of the book that are spelled as a program would: what they mean.

ghost use Rattle.std.specs.Prelude.{◌≡◌, ◌↔◌, ◌-◌, ℕ, true, List, if◌then◌else◌};
ghost use Rattle.nt_bytes.specs.Folding.{folds_same};
ghost use Rattle.hive_model.specs.Tree.{Tree, same_tree};
ghost use Rattle.start_model.specs.Machine.{failures_of, one_failure_less, with_failures};

/// The test whether two trees are one reports just that.
pub fn two_trees_are_one_where_the_test_says_so()
    ensures { (a : Tree) (b : Tree) → same_tree a b ≡ true ↔ a ≡ b }
{}

/// What is noted of failures to come is noted for a folded name: it is replaced, or falls by one, for each name that folds
/// the same, and is as before for all others.
pub fn failures_are_noted_by_folded_name()
    ensures noted { (noted : List (List ℕ × ℕ)) (name : List ℕ) (count : ℕ) (other : List ℕ)
        → failures_of (with_failures noted name count) other ≡ (if folds_same name other then count else failures_of noted other) }
    ensures met { (noted : List (List ℕ × ℕ)) (name : List ℕ) (other : List ℕ)
        → failures_of (one_failure_less noted name) other ≡ (if folds_same name other then failures_of noted name - 1 else failures_of noted other) }
{}
