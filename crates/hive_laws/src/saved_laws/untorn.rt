//! Which images have no sector that can't be read.

ghost use Rattle.std.specs.Prelude.{◌≡◌, ℕ, List, [], Some};
ghost use Rattle.hive_model.specs.Image.{Image, Address, File, Write, Unreadable, IsInFlight, IsCrashImage, overlaid, with_file, image_of};
ghost use Rattle.hive_laws.specs.saved_laws.Saved.{IsUntorn};

/// Each sector of two files can be read (`files`); where each of an image can, so can each after a file is placed (`placed`),
/// after writes (`written`), and after a loss of power with nothing in flight (`still`). In what a loss of power leaves, a
/// sector that can't be read is one that a write was in flight to (`torn`).
pub fn only_a_write_in_flight_is_torn()
    ensures files { (primary log : List ℕ) → IsUntorn (image_of primary log) }
    ensures placed { (image : Image) (file : File) (bytes : List ℕ) → IsUntorn image → IsUntorn (with_file file bytes image) }
    ensures written { (image : Image) (writes : List Write) → IsUntorn image → IsUntorn (overlaid image writes) }
    ensures still { (held left : Image) → IsUntorn held → IsCrashImage held [] left → IsUntorn left }
    ensures torn { (held left : Image) (flight : List Write) (at : Address) → IsUntorn held → IsCrashImage held flight left
        → left at ≡ Some Unreadable → IsInFlight flight at (Some Unreadable) }
{}
