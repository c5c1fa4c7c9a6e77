//! Laws of what is saved.

ghost use Rattle.std.specs.Prelude.{◌≡◌, ◌≤◌, ℕ, Bool, true, List, Some};
ghost use Rattle.nt_bytes.specs.declared.version.HiveVersion.{HiveVersion};
ghost use Rattle.hive_model.specs.Edit.{most_bulk};
ghost use Rattle.hive_model.specs.Base.{Base};
ghost use Rattle.hive_model.specs.Packed.{packed};
ghost use Rattle.hive_model.specs.Size.{bulk_of};
ghost use Rattle.hive_model.specs.Tree.{Tree};
ghost use Rattle.hive_model.specs.Valid.{IsValid};
ghost use Rattle.hive_pack.specs.Numbers.{HasNumbers};
ghost use Rattle.regf_base.specs.Fitting.{NumbersFit, TextsFit};
ghost use Rattle.salvage_file.specs.declared.saving.Saving.TheVariants.{Saved as SavedAs};
ghost use Rattle.salvage_file.specs.Salvage.{salvaged_hive};
ghost use Rattle.salvage_file.specs.Saving.{saved_file};
ghost use Rattle.salvage_laws.specs.Told.{IsSilent};

/// What is saved of a tree that a hive can hold is salvaged without a fault, as that tree in that version, and saved again as the same
/// bytes.
pub fn what_is_saved_is_salvaged_as_it_is()
    ensures silent { (base : Base) (version : HiveVersion) (t : Tree) (save : Bool) (log : List ℕ) → NumbersFit base → TextsFit base → IsValid t
        → HasNumbers t → bulk_of version t ≤ most_bulk
        → IsSilent (salvaged_hive save (saved_file base version (packed version t)) log)
        × ((salvaged_hive save (saved_file base version (packed version t)) log).tree ≡ Some t)
        × ((salvaged_hive save (saved_file base version (packed version t)) log).version ≡ version) }
    ensures saved { (base : Base) (version : HiveVersion) (t : Tree) (log : List ℕ) → NumbersFit base → TextsFit base → IsValid t
        → HasNumbers t → bulk_of version t ≤ most_bulk
        → (salvaged_hive true (saved_file base version (packed version t)) log).saving
        ≡ Some (SavedAs base.first (saved_file base version (packed version t))) }
{}
