//! Bins data: a list of bins, or a first fault.

ghost use Rattle.std.specs.Prelude.{◌≡◌, ◌⊎◌, ◌<◌, ◌≤◌, ℕ, List, length, slice_index};
ghost use Rattle.nt_bytes.specs.declared.fault.HiveFault.{HiveFault as HiveFaultModel};
ghost use Rattle.hive_model.specs.Limits.{most_bins};
ghost use Rattle.hive_model.specs.Bins.{Bin, IsBins, BinsFault};

/// Bins data are at most one list of bins, have at most one first fault, and never both. Up to 16 MiB they
/// always have one of the two.
pub fn bins_data_are_bins_or_have_a_fault()
    ensures one_list { (text : List ℕ) (bins others : List Bin) → IsBins text bins → IsBins text others → bins ≡ others }
    ensures one_fault { (text : List ℕ) (fault other : HiveFaultModel) → length text ≤ most_bins → BinsFault text fault → BinsFault text other → fault ≡ other }
    ensures not_both { (text : List ℕ) (bins : List Bin) (fault : HiveFaultModel) → IsBins text bins → BinsFault text fault → ⊥ }
    ensures one_of_the_two { (text : List ℕ) → ((k : ℕ) → slice_index text k < 256) → length text ≤ most_bins
        → ((bins : List Bin) × IsBins text bins) ⊎ ((fault : HiveFaultModel) × BinsFault text fault) }
{}
