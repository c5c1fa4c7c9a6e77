//! What the files load as that a disk answers when it is off.

ghost use Rattle.std.specs.Prelude.{◌≡◌, Bool, false, ℕ, List, All};
ghost use Rattle.hive_model.specs.Image.{Image, Write, Primary, Log, IsCrashImage, IsFileOf, image_of};
ghost use Rattle.hive_model.specs.State.{HiveState};
ghost use Rattle.nt_edge.specs.Bench.{taken};
ghost use Rattle.nt_edge.specs.Crash.{EachCrash};
ghost use Rattle.nt_edge.specs.Disk.{DiskState};
ghost use Rattle.hive_laws.specs.saved_laws.Saved.{IsUntorn, LoadsAmong};

/// A disk that a file was taken from has nothing in flight, so whatever is taken next is of the same image.
pub fn takes_in_a_row_are_of_one_image()
    ensures { (disk : DiskState) (image later : Image)
        → IsCrashImage (taken image disk).held (taken image disk).flight later → later ≡ image }
{}

/// Where each image that a loss of power may leave loads as one of these states, so do the files of the one that is left,
/// if all its sectors can be read (`left`): the primary, and the log that is taken after it (`taken`). Where each loads
/// clean, the primary alone does so, with any log, whatever sectors can't be read (`alone`).
pub fn taken_files_load()
    ensures left { (these : List (HiveState × Bool)) (held image : Image) (flight : List Write) (primary log : List ℕ)
        → ((c : Image) → IsCrashImage held flight c → LoadsAmong these c)
        → IsCrashImage held flight image → IsFileOf image Primary primary → IsFileOf image Log log → IsUntorn image
        → LoadsAmong these (image_of primary log) }
    ensures taken { (these : List (HiveState × Bool)) (disk : DiskState) (image later : Image) (primary log : List ℕ)
        → EachCrash disk (LoadsAmong these)
        → IsCrashImage disk.held disk.flight image → IsFileOf image Primary primary
        → IsCrashImage (taken image disk).held (taken image disk).flight later → IsFileOf later Log log → IsUntorn image
        → LoadsAmong these (image_of primary log) }
    ensures alone { (these : List (HiveState × Bool)) (held image : Image) (flight : List Write) (primary log : List ℕ)
        → ((c : Image) → IsCrashImage held flight c → LoadsAmong these c) → All (λ state. state.1 ≡ false) these
        → IsCrashImage held flight image → IsFileOf image Primary primary
        → LoadsAmong these (image_of primary log) }
{}
