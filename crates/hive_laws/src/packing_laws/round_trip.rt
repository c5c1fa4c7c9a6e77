//! A packed tree is read back.

ghost use Rattle.std.specs.Prelude.{◌≡◌, ◌≤◌, List, None};
ghost use Rattle.nt_bytes.specs.declared.fault.HiveFault.{HiveFault};
ghost use Rattle.nt_bytes.specs.declared.version.HiveVersion.{HiveVersion};
ghost use Rattle.hive_model.specs.Edit.{most_bulk};
ghost use Rattle.hive_model.specs.Tree.{Tree};
ghost use Rattle.hive_model.specs.Size.{bulk_of};
ghost use Rattle.hive_model.specs.Bins.{Bin, look_up, IsBins, BinsFault};
ghost use Rattle.hive_model.specs.Packed.{packed};
ghost use Rattle.hive_model.specs.Walk.{first_fault};
ghost use Rattle.hive_model.specs.Stands.{Stands};
ghost use Rattle.hive_laws.specs.packing_laws.Packing.{IsPackedIn};

/// The packed form of a tree that a hive can hold is read back as this tree and no other, in either
/// version: its bytes are those of some bins and have no fault, and in whichever bins they are,
/// reading at 32 stops at no fault and the one tree that stands there is this one.
pub fn a_packed_tree_is_read_back()
    ensures bins { (version : HiveVersion) (t : Tree) → bulk_of version t ≤ most_bulk → (bins : List Bin) × IsBins (packed version t) bins }
    ensures no_bad_bin { (version : HiveVersion) (t : Tree) (fault : HiveFault) → bulk_of version t ≤ most_bulk → BinsFault (packed version t) fault → ⊥ }
    ensures no_fault { (version : HiveVersion) (t : Tree) (bins : List Bin) → IsPackedIn version t bins → first_fault (look_up version bins) 32 ≡ None }
    ensures stands { (version : HiveVersion) (t : Tree) (bins : List Bin) → IsPackedIn version t bins → Stands (look_up version bins) 32 t }
    ensures no_other { (version : HiveVersion) (t u : Tree) (bins : List Bin) → IsPackedIn version t bins → Stands (look_up version bins) 32 u → u ≡ t }
{}
