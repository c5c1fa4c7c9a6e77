//! Laws of a hive that needs no log.

ghost use Rattle.std.specs.Prelude.{◌≡◌, ◌<◌, ℕ, Bool, false, List, Some, None, slice_index};
ghost use Rattle.nt_bytes.specs.declared.fault.HiveFault.{HiveFault};
ghost use Rattle.hive_model.specs.Image.{image_of};
ghost use Rattle.hive_model.specs.Load.{Loads, LoadFault};
ghost use Rattle.hive_model.specs.State.{HiveState};
ghost use Rattle.salvage_file.specs.Salvage.{salvaged_hive};
ghost use Rattle.salvage_laws.specs.Plain.{IsPlain};
ghost use Rattle.salvage_laws.specs.Told.{first_reported, IsSilent};

/// Of a hive of up to 16 MiB that is clean, or whose base block has a fault, no fault is reported exactly where it loads, and the tree is
/// then the one that is loaded. Where a load has a fault, the first one that is reported has that kind and that place.
pub fn a_plain_hive_is_salvaged_as_it_loads()
    ensures loads { (save : Bool) (hive log : List ℕ) (s : HiveState) (dirty : Bool) → IsPlain hive → Loads (image_of hive log) s dirty
        → IsSilent (salvaged_hive save hive log) × ((salvaged_hive save hive log).tree ≡ Some s.tree)
        × ((salvaged_hive save hive log).version ≡ s.version) }
    ensures refused { (save : Bool) (hive log : List ℕ) (fault : HiveFault) → ((k : ℕ) → slice_index hive k < 256) → IsPlain hive
        → LoadFault (image_of hive log) fault
        → first_reported (salvaged_hive save hive log) ≡ Some fault }
    ensures silent { (save : Bool) (hive log : List ℕ) → ((k : ℕ) → slice_index hive k < 256) → IsPlain hive
        → first_reported (salvaged_hive save hive log) ≡ None
        → (s : HiveState) × Loads (image_of hive log) s false × ((salvaged_hive save hive log).tree ≡ Some s.tree) }
{}
