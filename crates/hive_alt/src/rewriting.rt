//! A copy rewritten: opened, its bins sectors, closed.

ghost use Rattle.std.specs.Prelude.{◌≡◌, ◌<◌, ◌≤◌, ◌+◌, ◌*◌, ◌/◌, true, false, ℕ, Some, [], length, OnOk};
ghost use Rattle.hive_model.specs.Limits.{most_bins};
ghost use Rattle.hive_model.specs.Image as book;
ghost use Rattle.hive_model.specs.Recovery.{bit, sector};
ghost use Rattle.nt_edge.specs.Book.{file_of};
ghost use Rattle.nt_edge.specs.Calls.{MakesUntil};
ghost use Rattle.nt_edge.specs.Frames.{Goes};
ghost use Rattle.nt_edge.specs.Crash.{EachCrash, AgreeOutside};
ghost use Rattle.hive_alt.specs.Calls.{rewrite_calls};
ghost use Rattle.hive_alt.specs.Copies.{in_copy, IsWritten, IsRewriting};
ghost use Rattle.hive_alt.specs.Twin.{copy_at};

use crate::writing::{write_copy_bins, write_copy_block};
use nt_edge::{Disk, DiskStop, HiveFile};
use regf_base::BaseBlock;

/// Three stages, each with one sync: the base block that opens the copy, the bins sectors whose bit is on, and the
/// base block that closes it. The copy has the bins sectors whose bit is off.
pub(crate) fn rewrite<D: Disk>(
    disk: &mut D,
    file: HiveFile,
    opened: &BaseBlock,
    closed: &BaseBlock,
    bitmap: &[u8],
    new: &[u8],
) -> Result<(), DiskStop>
    requires on { (D.state disk.old).on ≡ true }
    requires still { D.tells ≡ true → (D.state disk.old).flight ≡ [] }
    requires whole { 512 * (length new.now / 512) ≡ length new.now }
    requires few { length new.now ≤ most_bins }
    requires stays { D.tells ≡ true → (i : ℕ) → 512 * i < length new.now → bit bitmap.now i ≡ false
        → (D.state disk.old).held (copy_at (file_of file) (8 + i)) ≡ Some (book.Bytes (sector new.now i)) }
    // Each stage's writes and its sync, and no other call; after a refusal a prefix of them.
    ensures made { MakesUntil (D.calls disk.old) (D.calls disk.new)
        (rewrite_calls (file_of file) opened.now closed.now (bit bitmap.now) new.now) result }
    // Whatever a cut leaves has the other copy as it was.
    ensures other { D.tells ≡ true → EachCrash (D.state disk.new) (AgreeOutside (in_copy (file_of file)) (D.state disk.old).held) }
    ensures crash { D.tells ≡ true → EachCrash (D.state disk.new)
        (IsRewriting (file_of file) (D.state disk.old).held opened.now closed.now new.now) }
    ensures still { D.tells ≡ true → OnOk result ((D.state disk.new).flight ≡ []) }
    ensures written { D.tells ≡ true → OnOk result (IsWritten (file_of file) (D.state disk.new).held closed.now new.now) }
    ensures goes { Goes (D.state disk.old) (D.state disk.new) result }
{
    write_copy_block(disk, file, opened)?;
    write_copy_bins(disk, file, bitmap, new)?;
    write_copy_block(disk, file, closed)
}
