//! What steps leave.

ghost use Rattle.std.specs.Prelude.{◌≡◌, ℕ, List, Ok};
ghost use Rattle.hive_model.specs.Bins.{Cells};
ghost use Rattle.hive_model.specs.Tree.{Tree};
ghost use Rattle.hive_model.specs.Edit.{Step, after_steps};
ghost use Rattle.hive_model.specs.Owned.{IsInFootprint};
ghost use Rattle.hive_model.specs.Stands.{IsWellFormed};
ghost use Rattle.edited_cells.specs.Framed.{Edits};
ghost use Rattle.edited_cells.specs.Parents.{NamesParents};
ghost use Rattle.edited_cells.specs.Done.{AreDone};

/// Steps in order, each framed by the cells that it is made on, leave each allocated cell outside their footprint where it
/// was, with its payload. The footprint is looked up in the cells from before all steps.
pub fn steps_leave_other_cells()
    ensures { (a c : Cells) (root : ℕ) (t : Tree) (steps : List Step) → Edits root a t steps c
        → (o : ℕ) (q : List ℕ) → a.payload o ≡ Ok q → (IsInFootprint a root t steps o → ⊥) → c.payload o ≡ Ok q }
{}

/// Steps that are done in sequence make the tree that they make in order, which is in the cells after them, and
/// leave each allocated cell outside their footprint. Where each key below another named the node of that one as its
/// parent, each does after them.
pub fn steps_are_done_in_order()
    ensures tree { (root : ℕ) (steps : List Step) (b c : Cells) (t u : Tree) → AreDone root b t steps c u → after_steps t steps ≡ Ok u }
    ensures stands { (root : ℕ) (steps : List Step) (b c : Cells) (t u : Tree) → IsWellFormed b root t → AreDone root b t steps c u → IsWellFormed c root u }
    ensures parents { (root : ℕ) (steps : List Step) (b c : Cells) (t u : Tree) → AreDone root b t steps c u → NamesParents b root → NamesParents c root }
    ensures left { (b c : Cells) (root : ℕ) (t u : Tree) (steps : List Step) → AreDone root b t steps c u
        → (o : ℕ) (q : List ℕ) → b.payload o ≡ Ok q → (IsInFootprint b root t steps o → ⊥) → c.payload o ≡ Ok q }
{}
