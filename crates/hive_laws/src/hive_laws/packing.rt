//! The packed form of small trees, each byte of it, and their bulk.

ghost use Rattle.std.specs.Prelude.{◌≡◌, ◌<◌, ℕ, List, length};
ghost use Rattle.hive_model.specs.Bins.{Cells};
ghost use Rattle.hive_model.specs.Lists.{AreHints};
ghost use Rattle.hive_model.specs.Packed.{list_cells};
ghost use Rattle.hive_model.specs.InPlace.{IsPackedList};
ghost use Rattle.hive_laws.specs.hive_laws.Rows.{InARow};

/// The lists that a key is packed with, in sequence, are a list as it is written, with the children at any places.
pub fn packed_lists_are_written_lists()
    ensures { (cells : Cells) (at : ℕ) (places : List ℕ) (hints : List (List ℕ)) → 0 < length places → length places ≡ length hints → AreHints hints
        → InARow cells at (list_cells cells.version at places hints) → IsPackedList cells at places hints }
{}
