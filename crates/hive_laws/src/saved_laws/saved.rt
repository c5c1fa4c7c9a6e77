//! What an image loads as whose files were saved.

ghost use Rattle.std.specs.Prelude.{◌≡◌, Bool, false, ℕ, List, Some};
ghost use Rattle.nt_bytes.specs.declared.fault.HiveFaultKind.TheVariants.{NotRegf};
ghost use Rattle.hive_model.specs.Asked.{primary_at};
ghost use Rattle.hive_model.specs.Base.{fault_at};
ghost use Rattle.hive_model.specs.Image.{Image, Primary, Log, Unreadable, IsFileOf, image_of};
ghost use Rattle.hive_model.specs.Load.{Loads, LoadFault};
ghost use Rattle.hive_model.specs.State.{HiveState};
ghost use Rattle.hive_laws.specs.saved_laws.Saved.{IsUntorn, HasUntornBlock, KeepsSectors};

/// An image that loads, loads the same with anything in place of sectors that are absent or can't be read, unless the
/// primary's sector 0 is one that can't be read (`filled`). Of a clean one, whose sector 0 can be, the log may be any (`clean`).
pub fn filled_sectors_change_no_load()
    ensures filled { (image other : Image) (state : HiveState) (dirty : Bool)
        → KeepsSectors Primary image other → KeepsSectors Log image other → HasUntornBlock image
        → Loads image state dirty → Loads other state dirty }
    ensures clean { (image other : Image) (state : HiveState)
        → KeepsSectors Primary image other → Loads image state false → Loads other state false }
{}

/// An image that loads, and has no sector that can't be read, loads the same when its two files are saved and read again
/// (`untorn`). It is enough that the primary's sector 0 can be read (`block`). The files may be of any length.
pub fn saved_files_load()
    ensures untorn { (image : Image) (primary log : List ℕ) (state : HiveState) (dirty : Bool)
        → IsFileOf image Primary primary → IsFileOf image Log log → IsUntorn image
        → Loads image state dirty → Loads (image_of primary log) state dirty }
    ensures block { (image : Image) (primary log : List ℕ) (state : HiveState) (dirty : Bool)
        → IsFileOf image Primary primary → IsFileOf image Log log → HasUntornBlock image
        → Loads image state dirty → Loads (image_of primary log) state dirty }
{}

/// An image that loads clean loads the same when its primary alone is saved, with an empty log or any other, whatever
/// sectors can't be read.
pub fn a_clean_primary_loads_alone()
    ensures { (image : Image) (primary log : List ℕ) (state : HiveState)
        → IsFileOf image Primary primary → Loads image state false → Loads (image_of primary log) state false }
{}

/// Where the primary's sector 0 can't be read, its file is no hive, though the image may load by its log.
pub fn a_torn_block_is_not_saved()
    ensures { (image : Image) (primary log : List ℕ)
        → IsFileOf image Primary primary → image (primary_at 0) ≡ Some Unreadable
        → LoadFault (image_of primary log) (fault_at NotRegf 0) }
{}
