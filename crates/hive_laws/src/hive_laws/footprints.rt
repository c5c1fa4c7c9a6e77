//! Which cells an edit in place may change.

ghost use Rattle.std.specs.Prelude.{◌≡◌, ◌↔◌, ◌⊎◌, ℕ, List, ◌++◌, Ok, Err};
ghost use Rattle.hive_model.specs.Bins.{Cells};
ghost use Rattle.hive_model.specs.Tree.{Tree};
ghost use Rattle.hive_model.specs.Edit.{Step, Refusal, after_steps};
ghost use Rattle.hive_model.specs.Owned.{IsInFootprint};

/// What is in the footprint of steps is in that of these and further steps.
pub fn a_footprint_only_grows()
    ensures { (cells : Cells) (root : ℕ) (t : Tree) (steps more : List Step) (offset : ℕ)
        → IsInFootprint cells root t steps offset → IsInFootprint cells root t (steps ++ more) offset }
{}

/// Steps after others add the cells that they would have alone, on the tree that those before them lead to.
/// After a refused step none adds a cell.
pub fn a_footprint_goes_on()
    ensures further { (cells : Cells) (root : ℕ) (t u : Tree) (steps more : List Step) (offset : ℕ) → after_steps t steps ≡ Ok u
        → IsInFootprint cells root t (steps ++ more) offset ↔ (IsInFootprint cells root t steps offset ⊎ IsInFootprint cells root u more offset) }
    ensures refused { (cells : Cells) (root : ℕ) (t : Tree) (why : Refusal) (steps more : List Step) (offset : ℕ) → after_steps t steps ≡ Err why
        → IsInFootprint cells root t (steps ++ more) offset ↔ IsInFootprint cells root t steps offset }
{}
