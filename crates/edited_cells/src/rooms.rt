//! The room for the cells that a step writes is within its strain.

ghost use Rattle.std.specs.Prelude.{◌≡◌, ◌+◌, ◌<◌, ◌≤◌, ℕ, List, ◌∷◌, ◌++◌, Ok};
ghost use Rattle.nt_bytes.specs.declared.version.HiveVersion.{HiveVersion as Version};
ghost use Rattle.hive_model.specs.Tree.{Tree};
ghost use Rattle.hive_model.specs.Edit.{Step, after_step};
ghost use Rattle.hive_model.specs.Packed.{rounded};
ghost use Rattle.hive_model.specs.Footprint.{needed_sizes, strain_of};
ghost use Rattle.edited_cells.specs.Sizes.{total, AreSome, AreGrown};

/// Where each of the steps in order makes the bins data longer by at most the room for cells that it may need, the data
/// are at most as long as the strain of these steps, and of these and further ones.
pub fn steps_grow_within_their_strain()
    ensures { (version : Version) (bytes now : ℕ) (t u : Tree) (steps further : List Step) → AreGrown version bytes t steps now u
        → now ≤ strain_of version bytes t (steps ++ further) }
{}

/// Where a bin for cells that a step may need, in sequence, would make the bins data longer than a limit, after steps
/// that made them as long as they are, the strain of all is over the limit.
pub fn a_step_without_room_is_strained()
    ensures { (version : Version) (bytes now limit : ℕ) (t u v : Tree) (steps further : List Step) (step : Step) (asked : List ℕ)
        → AreGrown version bytes t steps now u
        → after_step step u ≡ Ok v → AreSome asked (needed_sizes version u step v) → 0 < total asked → limit < now + rounded (total asked + 32)
        → limit < strain_of version bytes t (steps ++ step ∷ further) }
{}
