//! An open file, as a disk of sectors asks it.

ghost use Rattle.std.specs.Prelude.{◌≡◌, ◌≤◌, ◌∷◌, [], ℕ, List, Option, length, IfOk};
ghost use Rattle.std.specs.Option.{IfSome};
ghost use Rattle.file_disk.specs.Given.{Gives};
ghost use Rattle.std.specs.Io.{ReadsAtMost};
ghost use Rattle.file_disk.specs.Asked.{Asked, ReadFrom, WroteTo, SyncedFile, Asks, CountsFailure};

use std::io::Result as IoResult;

/// An open file that is read and written. It is known by its calls: one that forgets them, as a file of the system does, says every list.
pub trait SectorFile {
    /// What the file says of the calls that were made: lists, the first call first, among which is the true one.
    ghost asked: { Self → List Asked → Type 0 };

    /// How many of them failed, up to the end of the count.
    ghost failed: { Self → ℕ };

    /// The bytes that it has, where it shows them; a file of the system shows nothing.
    ghost holds: { Self → Option (List ℕ) };

    /// Reads bytes from this place on, the same number as the file gives at once; none at and past its end.
    fn read_at(&mut self, into: &mut [u8], place: u64) -> IoResult<usize>
        ensures asked { Asks (asked self.old) (asked self.new) (ReadFrom place (length into.old) ∷ []) }
        ensures failed { CountsFailure result (failed self.old) (failed self.new) }
        ensures within { ReadsAtMost result into.new }
        ensures given { IfSome (holds self.old) (λ bytes. IfOk result (λ n. Gives bytes place n into.old into.new)) }
        ensures held { holds self.new ≡ holds self.old };

    /// Writes all the bytes from this place on.
    fn write_all_at(&mut self, bytes: &[u8], place: u64) -> IoResult<()>
        ensures asked { Asks (asked self.old) (asked self.new) (WroteTo place bytes.now ∷ []) }
        ensures failed { CountsFailure result (failed self.old) (failed self.new) };

    /// Brings what was written to the medium.
    fn sync_all(&mut self) -> IoResult<()>
        ensures asked { Asks (asked self.old) (asked self.new) (SyncedFile ∷ []) }
        ensures failed { CountsFailure result (failed self.old) (failed self.new) };

    /// The count is never past its end.
    ghost bounded: { (file : Self) → failed file ≤ 18446744073709551615 };

    /// Of the calls that were made it says some list.
    ghost some: { (file : Self) → (calls : List Asked) × asked file calls };
}
