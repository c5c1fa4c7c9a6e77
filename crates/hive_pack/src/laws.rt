//! What holds of packed trees.

ghost use Rattle.std.specs.Prelude.{◌≡◌, ◌<◌, ◌+◌, ℕ, List, [], length, slice_index_or};
ghost use Rattle.nt_bytes.specs.declared.version.HiveVersion.{HiveVersion};
ghost use Rattle.hive_model.specs.Tree.{Tree};
ghost use Rattle.hive_model.specs.Packed.{ring, forward, backward};
ghost use Rattle.hive_pack.specs.Numbers.{PackedStands, PackedIsWellFormed, PackedIsBins};
ghost use Rattle.hive_pack.specs.Uses.{PackedCountsUses};
ghost use Rattle.hive_pack.specs.Writes.{IsRising};

/// In the bins of a packed tree the tree is at 32.
pub fn packed_tree_stands()
    ensures { PackedStands }
{}

/// The cells of a packed tree are well-formed at 32, where the tree stands: each cell is used once,
/// or each time as security.
pub fn packed_cells_are_well_formed()
    ensures { PackedIsWellFormed }
{}

/// The packed form is the bytes of these bins, with sound headers and cells.
pub fn packed_form_is_its_bins()
    ensures { PackedIsBins }
{}

/// The places of a tree's security cells rise. In the ring each is linked forward to the next, the
/// last to the first, each backward to the one before, the first to the last; so the way back from
/// the one that is next leads where it began.
pub fn security_cells_are_a_ring()
    ensures rising { (version : HiveVersion) (t : Tree) → IsRising (ring version [] 32 t) }
    ensures next { (places : List ℕ) (i : ℕ) → IsRising places → i + 1 < length places
        → forward places (slice_index_or places i 0) ≡ slice_index_or places (i + 1) 0 }
    ensures last { (places : List ℕ) (i : ℕ) → IsRising places → i + 1 ≡ length places
        → forward places (slice_index_or places i 0) ≡ slice_index_or places 0 0 }
    ensures before { (places : List ℕ) (i : ℕ) → IsRising places → i + 1 < length places
        → backward places (slice_index_or places (i + 1) 0) ≡ slice_index_or places i 0 }
    ensures first { (places : List ℕ) (i : ℕ) → IsRising places → i + 1 ≡ length places
        → backward places (slice_index_or places 0 0) ≡ slice_index_or places i 0 }
    ensures back { (places : List ℕ) (i : ℕ) → IsRising places → i < length places
        → backward places (forward places (slice_index_or places i 0)) ≡ slice_index_or places i 0 }
{}

/// Each security cell of a packed tree counts the keys whose nodes name it.
pub fn security_cells_count_their_keys()
    ensures { PackedCountsUses }
{}
