//! The laws.

ghost use Rattle.std.specs.Prelude.{◌≡◌, ◌≤◌, ◌<◌, ℕ, List, [], ◌∷◌, false, Some, slice_index};
ghost use Rattle.nt_bytes.specs.declared.version.HiveVersion.{HiveVersion};
ghost use Rattle.nt_bytes.specs.declared.fault.HiveFault.{HiveFault};
ghost use Rattle.hive_model.specs.Edit.{most_bulk};
ghost use Rattle.hive_model.specs.Base.{Base, fields_of};
ghost use Rattle.hive_model.specs.Image.{image_of};
ghost use Rattle.hive_model.specs.Load.{Loads, state_of};
ghost use Rattle.hive_model.specs.Packed.{packed};
ghost use Rattle.hive_model.specs.Size.{bulk_of};
ghost use Rattle.hive_model.specs.Tree.{Tree};
ghost use Rattle.hive_model.specs.Valid.{IsValid};
ghost use Rattle.hive_pack.specs.Numbers.{HasNumbers};
ghost use Rattle.regf_base.specs.Fitting.{NumbersFit, TextsFit};
ghost use Rattle.salvage_bins.specs.declared.layout.Mark.{Mark};
ghost use Rattle.salvage_walk.specs.Keys.{salvaged};
ghost use Rattle.salvage_file.specs.Faults.{base_faults, head_of};
ghost use Rattle.salvage_file.specs.Opened.{opened};
ghost use Rattle.salvage_file.specs.Salvage.{ground_in};
ghost use Rattle.salvage_file.specs.Saving.{saved_file};

/// What is saved of a tree that a hive can hold loads as exactly that tree, clean, with the same number and version.
pub fn what_is_saved_loads_as_the_tree()
    ensures { (base : Base) (version : HiveVersion) (t : Tree) → NumbersFit base → TextsFit base → IsValid t → HasNumbers t
        → bulk_of version t ≤ most_bulk
        → Loads (image_of (saved_file base version (packed version t)) []) (state_of t base.first version) false }
{}

/// What is salvaged of bytes is a tree that a hive can hold.
pub fn a_salvaged_tree_is_valid()
    ensures { (version : HiveVersion) (bytes : List ℕ) (marks : List Mark) (root : ℕ) (t : Tree) → ((k : ℕ) → slice_index bytes k < 256)
        → (salvaged (ground_in version bytes marks) root).0 ≡ Some t → IsValid t }
{}

/// The log of a hive is not looked at where its base block has a fault, or its two numbers are equal.
pub fn a_log_is_read_for_a_dirty_hive_alone()
    ensures broken { (file log other : List ℕ) (fault : HiveFault) (more : List HiveFault) → base_faults (head_of file) 0 ≡ fault ∷ more
        → opened file log ≡ opened file other }
    ensures clean { (file log other : List ℕ) → base_faults (head_of file) 0 ≡ []
        → (fields_of (head_of file)).first ≡ (fields_of (head_of file)).second → opened file log ≡ opened file other }
{}
