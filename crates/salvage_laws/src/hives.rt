//! Laws of a hive with its log.

ghost use Rattle.std.specs.Prelude.{◌≡◌, ◌<◌, ℕ, Bool, List, Some, None, slice_index};
ghost use Rattle.nt_bytes.specs.declared.fault.HiveFault.{HiveFault};
ghost use Rattle.hive_model.specs.Image.{image_of};
ghost use Rattle.hive_model.specs.Load.{Loads, LoadsAs, LoadFault};
ghost use Rattle.hive_model.specs.State.{HiveState};
ghost use Rattle.salvage_file.specs.Salvage.{salvaged_hive};
ghost use Rattle.salvage_laws.specs.Plain.{AreSmall};
ghost use Rattle.salvage_laws.specs.Told.{first_reported, IsSilent, TellsFirst};

/// Of a hive and a log of up to 16 MiB no fault is reported exactly where it loads, clean or recovered, and the tree is then the one that
/// is loaded. Where a load has a fault, the first one that is reported has that kind and that place; but where the log has it, that the
/// hive's file is too short may be reported before.
pub fn a_hive_is_salvaged_as_it_loads()
    ensures loads { (save : Bool) (hive log : List ℕ) (s : HiveState) (dirty : Bool) → AreSmall hive log → Loads (image_of hive log) s dirty
        → IsSilent (salvaged_hive save hive log) × ((salvaged_hive save hive log).tree ≡ Some s.tree)
        × ((salvaged_hive save hive log).version ≡ s.version) }
    ensures refused { (save : Bool) (hive log : List ℕ) (fault : HiveFault) → ((k : ℕ) → slice_index hive k < 256)
        → ((k : ℕ) → slice_index log k < 256) → AreSmall hive log → LoadFault (image_of hive log) fault
        → TellsFirst (salvaged_hive save hive log) fault }
    ensures silent { (save : Bool) (hive log : List ℕ) → ((k : ℕ) → slice_index hive k < 256) → ((k : ℕ) → slice_index log k < 256)
        → AreSmall hive log → first_reported (salvaged_hive save hive log) ≡ None
        → (s : HiveState) × LoadsAs (image_of hive log) s × ((salvaged_hive save hive log).tree ≡ Some s.tree) }
{}
