//! Edits of a session.

ghost use Rattle.std.specs.Prelude.{◌≡◌, ◌⊎◌, ◌↔◌, true, map, OnOk, OnErr};
ghost use Rattle.std.specs.List.{All};
ghost use Rattle.hive_model.specs.Base.{version_of};
ghost use Rattle.hive_model.specs.Edit.{edited};
ghost use Rattle.reg_tree.specs.Fitting.{Fits};
ghost use Rattle.reg_tree.specs.Makes.{Makes, step_of};
ghost use Rattle.hive_edit.specs.Edits.{IsEditedInPlace, IsPackedForRoom, KeepsParents};

use crate::Hive;
use crate::same::keeps;
use reg_tree::{EditStop, Steps};
use std::alloc::Global;

impl Hive {
    /// Makes the steps in order, all or none, as `HiveBytes::apply` does. Steps that give the tree that is there leave
    /// a session without changes as it is.
    /// A hive can hold each key that a step brings along. After an `Err` the session is as before.
    pub fn apply(&mut self, alloc: Global, steps: Steps) -> Result<(), EditStop>
        requires fits { All Fits (map step_of steps) }
        // The tree is the book's edit of it; the refusals are the book's, and out of memory.
        ensures made { Makes self.old.tree self.new.tree result
            (edited (version_of self.old.base.minor) self.old.tree (map step_of steps)) }
        ensures refused { OnErr result (self.new ≡ self.old) }
        ensures base { self.new.base ≡ self.old.base }
        ensures bins { self.new.bins ≡ self.old.bins }
        // Steps that give the tree that is there may leave the session as it is. Else the cells are edited in place, or repacked where the
        // strain of the steps is over the greatest size of bins data.
        ensures cells { OnOk result ((self.new ≡ self.old)
            ⊎ (IsEditedInPlace self.old.cells (map step_of steps) self.new.cells ⊎ IsPackedForRoom self.old.cells (map step_of steps) self.new.cells)) }
        // Keys that named the nodes above them as their parents do so still.
        ensures parents { OnOk result (KeepsParents self.old.cells self.new.cells) }
        // It is changed where it was before, or where the tree is another.
        ensures changed { OnOk result (self.new.changed ≡ true
            ↔ (self.old.changed ≡ true) ⊎ (self.new.tree ≡ self.old.tree → ⊥)) }
    {
        if !self.changed && keeps(alloc, &self.cells, &steps)? {
            return Ok(());
        }
        self.cells.apply(alloc, steps)?;
        self.changed = true;
        Ok(())
    }
}
