//! What a hive is recovered as: one that is clean, one whose log is read back, one that was saved as files, and the two
//! files of a small one, with sectors that can't be read among them.

ghost use Rattle.std.specs.Prelude.{◌≡◌, ℕ, Bool, List, Option, Some, Ok, true, false};
ghost use Rattle.hive_model.specs.Base.{Base};
ghost use Rattle.hive_model.specs.Image.{Image, Bytes, image_of};
ghost use Rattle.hive_model.specs.Carries.{Carries};
ghost use Rattle.hive_model.specs.Recovery.{Recovered, primary_in, recovered_of};
ghost use Rattle.hive_model.specs.Log.{dirty};
ghost use Rattle.hive_model.specs.Load.{Loads};
ghost use Rattle.hive_model.specs.State.{HiveState};
ghost use Rattle.hive_laws.specs.hive_laws.Samples.{block};
ghost use Rattle.hive_laws.specs.hive_laws.Opened.{IsClosing, IsUnderWay};
ghost use Rattle.hive_laws.specs.hive_laws.Whole.{AreSaved};

/// An image that carries a base block and bins data is recovered as these, without its log.
pub fn what_is_carried_is_recovered()
    ensures { (image : Image) (base : Base) (bins : List ℕ) → Carries image base bins
        → recovered_of image ≡ Ok (record { base = base; bins = bins; dirty = false }) }
{}

/// What is spelled as a log, with any bits, is read back: where the primary's base block is that of an unfinished commit or can't be
/// read, and its sectors whose bit is off are those of the new bins data, the image is recovered as the new base block and the new
/// bins data.
pub fn a_log_is_read_back()
    ensures { (image : Image) (opened : Option Base) (closed : Base) (bits : ℕ → Bool) (bins : List ℕ) → IsClosing opened closed bins
        → IsUnderWay image opened closed bits bins
        → recovered_of image ≡ Ok (record { base = closed; bins = bins; dirty = true }) }
{}

/// An image that is recovered is recovered alike, and loads alike, when its two files are saved and read again. In a saved file a sector
/// that is absent or can't be read is zeros, so the primary's sector 0 has to be one that can be read; others may be any that are not
/// looked at.
pub fn saved_files_are_recovered_alike()
    ensures recovered { (image : Image) (primary log block : List ℕ) (recovered : Recovered)
        → AreSaved image primary log → primary_in image 0 ≡ Some (Bytes block)
        → recovered_of image ≡ Ok recovered → recovered_of (image_of primary log) ≡ Ok recovered }
    ensures loads { (image : Image) (primary log block : List ℕ) (state : HiveState) (dirty : Bool)
        → AreSaved image primary log → primary_in image 0 ≡ Some (Bytes block)
        → Loads image state dirty → Loads (image_of primary log) state dirty }
{}
