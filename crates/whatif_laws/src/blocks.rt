//! What is printed for one name, and what is printed for all entries.

ghost use Rattle.std.specs.Prelude.{◌≡◌, ℕ, List, None, Some, filter};
ghost use Rattle.std.specs.List.{flat_map};
ghost use Rattle.nt_bytes.specs.Folding.{folds_same};
ghost use Rattle.failure_effects.specs.declared.opening.Taken.{Taken};
ghost use Rattle.failure_effects.specs.declared.told.Told.{Told};
ghost use Rattle.failure_effects.specs.Effects.{is_asked};
ghost use Rattle.failure_effects.specs.Lost.{blocks_of, blocks_where};

/// Without a name the blocks are those of each entry that the plain start takes, in its order. With a name they are those of the
/// entries that have it, and each is the same block.
pub fn the_blocks_of_a_name_are_those_of_the_whole()
    ensures whole { (taken : Taken) (plain : List Told) → blocks_where (is_asked None) taken plain ≡ flat_map (blocks_of taken plain) plain }
    ensures part { (taken : Taken) (plain : List Told) (name : List ℕ)
        → blocks_where (is_asked (Some name)) taken plain ≡ flat_map (blocks_of taken plain) (filter (λ t. folds_same name t.name) plain) }
{}
