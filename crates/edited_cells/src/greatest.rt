//! The greatest lengths that a key's node records.

ghost use Rattle.std.specs.Prelude.{◌≡◌, ℕ, List, Some};
ghost use Rattle.hive_model.specs.Bins.{Cells};
ghost use Rattle.hive_model.specs.Tree.{Tree};
ghost use Rattle.hive_model.specs.Edit.{Step};
ghost use Rattle.hive_model.specs.Footprint.{key_place};
ghost use Rattle.edited_cells.specs.Done.{IsDone};
ghost use Rattle.edited_cells.specs.Greatest.{RaisesLengths, IsNamedPath};

/// Where after a step the node of a key that it names, or of the key above one, records greater lengths, the step is done.
pub fn greater_lengths_are_told()
    ensures { (b m c : Cells) (root : ℕ) (t u : Tree) (step : Step) (path : List (List ℕ)) (x : ℕ) → IsDone b m root t u step
        → key_place m path root ≡ Some x → IsNamedPath step path → RaisesLengths m c x → IsDone b c root t u step }
{}
