//! Laws of the walk.

ghost use Rattle.std.specs.Prelude.{◌≡◌, ℕ, false, [], Some, None};
ghost use Rattle.hive_model.specs.Stands.{IsWellFormed};
ghost use Rattle.hive_model.specs.Tree.{Tree};
ghost use Rattle.hive_model.specs.Walk.{first_fault};
ghost use Rattle.salvage_bins.specs.Ground.{Ground};
ghost use Rattle.salvage_walk.specs.Keys.{salvaged};
ghost use Rattle.salvage_laws.specs.Apart.{AreApart};
ghost use Rattle.salvage_laws.specs.LeftKeys.{IsSalvage};
ghost use Rattle.salvage_laws.specs.Told.{first_told};

/// Of cells in bins that are whole the walk reports first what a load would refuse, and where; without a fault it reports nothing, and the
/// tree is the one that a load answers.
pub fn the_walk_refuses_what_a_load_refuses()
    ensures first { (hive : Ground) (root : ℕ) → ((at : ℕ) → hive.loose at ≡ false)
        → first_told (salvaged hive root).1.lines ≡ first_fault hive.cells root }
    ensures silent { (hive : Ground) (root : ℕ) → ((at : ℕ) → hive.loose at ≡ false) → first_fault hive.cells root ≡ None
        → (salvaged hive root).1.lines ≡ [] }
    ensures tree { (hive : Ground) (root : ℕ) (t : Tree) → ((at : ℕ) → hive.loose at ≡ false) → IsWellFormed hive.cells root t
        → (salvaged hive root).0 ≡ Some t }
{}

/// Each key and value that is salvaged is in allocated cells that have its form, with these fields, at its path, and no byte is used
/// twice, but of security. Each other part has a line, and its fault is one of the part's own cells, name or level, or of a cell or name
/// that the result has. There is no other line.
pub fn what_is_salvaged_stands_and_the_rest_has_a_line()
    ensures left { (hive : Ground) (root : ℕ) → IsSalvage hive root (salvaged hive root).0 (salvaged hive root).1 }
    ensures apart { (hive : Ground) (root : ℕ) → AreApart (salvaged hive root).1.claims }
{}
