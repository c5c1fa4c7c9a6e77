//! The laws.

ghost use Rattle.std.specs.Prelude.{◌≡◌, ◌≢◌, ◌↔◌, ◌<◌, ◌≤◌, ◌%◌, ℕ, List, length, slice_index};
ghost use Rattle.std.specs.List.{All, AllPairs, Contains};
ghost use Rattle.nt_bytes.specs.declared.version.HiveVersion.{HiveVersion};
ghost use Rattle.salvage_bins.specs.declared.layout.Mark.{Mark};
ghost use Rattle.salvage_bins.specs.Ground.{Ground};
ghost use Rattle.salvage_bins.specs.Layout.{layout_of};
ghost use Rattle.salvage_walk.specs.declared.lines.Incomplete.{Incomplete};
ghost use Rattle.salvage_parents.specs.Naming.{naming};
ghost use Rattle.salvage_parents.specs.Search.{salvaged_by_parents};
ghost use Rattle.salvage_file.specs.Salvage.{ground_in};
ghost use Rattle.salvage_laws.specs.Apart.{AreApart};
ghost use Rattle.salvage_laws.specs.Bytes.{LiesInCell, UseNoByteTwice};
ghost use Rattle.found_laws.specs.found_laws.Found.{NamesParent};
ghost use Rattle.found_laws.specs.found_laws.Lines.{AreIncomplete};
ghost use Rattle.found_laws.specs.found_laws.Searched.{uses_by_parents, notes_by_parents, IsFoundSalvage};

/// Each key that is found by its parent, and each key and value below it, is in allocated cells that have its form, with these fields, and
/// no byte is used twice, but of security. Each other part below it has a line, and its fault is one of the part's own cells, name or
/// level, or of a cell or name that the result has. There is no other line but the count of what was found. A node that names an
/// incomplete key as its parent and isn't found has such a fault too.
pub fn what_is_found_stands_and_the_rest_has_a_line()
    ensures found { (hive : Ground) (root : ℕ) → IsFoundSalvage hive root (uses_by_parents hive root) (notes_by_parents hive root)
        (salvaged_by_parents hive root) }
    ensures apart { (hive : Ground) (root : ℕ) → AreApart (uses_by_parents hive root) }
{}

/// The nodes that are tried below a key are those that name it as their parent, in the order of their places.
pub fn the_nodes_that_are_tried_name_their_parent()
    ensures named { (hive : Ground) (parent at : ℕ) → Contains (naming hive parent hive.slots) at ↔ NamesParent hive parent hive.slots at }
    ensures rising { (hive : Ground) (parent : ℕ) → AllPairs (λ a b. a < b) (naming hive parent hive.slots) }
{}

/// The incomplete keys are those of which a line says that children may be missing, in the order of the first such line of each. None is
/// noted twice, and of bytes there are no more of them than places: each has its turn.
pub fn the_incomplete_keys_are_those_with_a_line()
    ensures told { (hive : Ground) (root : ℕ) → AreIncomplete (notes_by_parents hive root) (salvaged_by_parents hive root) }
    ensures once { (hive : Ground) (root : ℕ) → AllPairs (λ (a b : Incomplete). a.at ≢ b.at) (notes_by_parents hive root) }
    ensures turns { (version : HiveVersion) (bytes : List ℕ) (marks : List Mark) (root : ℕ)
        → length (notes_by_parents (ground_in version bytes marks) root) ≤ (ground_in version bytes marks).slots }
{}

/// Each use, with those of what is found, is of an allocated cell and ends in it. Of bins data in whole eight bytes, whatever bins are
/// whole, no byte is used twice.
pub fn no_byte_is_used_twice_for_what_is_found()
    ensures cells { (hive : Ground) (root : ℕ) → All (LiesInCell hive) (uses_by_parents hive root) }
    ensures bytes { (version : HiveVersion) (bytes : List ℕ) (root : ℕ) → ((k : ℕ) → slice_index bytes k < 256) → length bytes % 8 ≡ 0
        → UseNoByteTwice (uses_by_parents (ground_in version bytes (layout_of bytes).marks) root) }
{}
