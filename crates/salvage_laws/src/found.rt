//! Laws of bins data.

ghost use Rattle.std.specs.Prelude.{◌≡◌, ◌≤◌, ◌<◌, ℕ, length, slice_index, [], Some, None};
ghost use Rattle.nt_bytes.specs.declared.fault.HiveFault.{HiveFault};
ghost use Rattle.hive_model.specs.Limits.{most_bins};
ghost use Rattle.hive_model.specs.Base.{version_of};
ghost use Rattle.hive_model.specs.Load.{Holds, HeldFault};
ghost use Rattle.hive_model.specs.Recovery.{Recovered};
ghost use Rattle.hive_model.specs.State.{HiveState};
ghost use Rattle.salvage_file.specs.Salvage.{found_in};
ghost use Rattle.salvage_laws.specs.Told.{first_found};

/// In bins data that hold a state nothing is wrong, and its tree is salvaged. In others of bytes, of up to 16 MiB, the first fault that is
/// reported is the one that a load has first. Where none is reported they hold a state.
pub fn what_is_found_is_what_a_load_finds()
    ensures holds { (r : Recovered) (s : HiveState) → Holds r s
        → found_in (version_of r.base.minor) r.bins r.base.root ≡ record { broken = []; lines = []; said = []; tree = Some s.tree } }
    ensures fault { (r : Recovered) (fault : HiveFault) → ((k : ℕ) → slice_index r.bins k < 256) → length r.bins ≤ most_bins
        → HeldFault r fault → first_found (found_in (version_of r.base.minor) r.bins r.base.root) ≡ Some fault }
    ensures silent { (r : Recovered) → ((k : ℕ) → slice_index r.bins k < 256) → length r.bins ≤ most_bins
        → first_found (found_in (version_of r.base.minor) r.bins r.base.root) ≡ None → (s : HiveState) × Holds r s }
{}
