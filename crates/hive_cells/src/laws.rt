//! Laws of bins and their faults.

ghost use Rattle.std.specs.Prelude.{◌≡◌, ◌⊎◌, ◌<◌, ◌≤◌, ℕ, List, length, slice_index_or};
ghost use Rattle.nt_bytes.specs.declared.fault.HiveFault.{HiveFault as HiveFaultModel};
ghost use Rattle.hive_model.specs.Limits.{most_bins};
ghost use Rattle.hive_model.specs.Bins.{Bin, IsHeap, IsBins, BinsFault, spelled};

/// A text has at most one list of bins.
pub fn one_list()
    ensures { (bins others : List Bin) → IsHeap bins → IsHeap others → spelled 0 bins ≡ spelled 0 others → bins ≡ others }
{}

/// A text has never both a list of bins and a fault.
pub fn list_or_fault()
    ensures { (bins : List Bin) (fault : HiveFaultModel) → IsHeap bins → BinsFault (spelled 0 bins) fault → ⊥ }
{}

/// A text has at most one fault.
pub fn one_fault()
    ensures { (text : List ℕ) (fault other : HiveFaultModel) → length text ≤ most_bins → BinsFault text fault → BinsFault text other → fault ≡ other }
{}

/// Each text has a list of bins or a fault.
pub fn one_of_the_two()
    ensures { (text : List ℕ) → ((i : ℕ) → slice_index_or text i 0 < 256) → length text ≤ most_bins
        → ((bins : List Bin) × IsBins text bins) ⊎ ((fault : HiveFaultModel) × BinsFault text fault) }
{}
