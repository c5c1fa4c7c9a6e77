//! A commit to two copies: the second copy is rewritten, and then the primary.

ghost use Rattle.std.specs.Prelude.{◌≡◌, true, [], length, IfOk, OnOk, IsOk};
ghost use Rattle.hive_model.specs.Base.{is_bins_size};
ghost use Rattle.nt_edge.specs.Calls.{MakesUntil};
ghost use Rattle.nt_edge.specs.Crash.{EachCrash};
ghost use Rattle.nt_edge.specs.Frames.{Goes};
ghost use Rattle.nt_bytes.specs.Counts.{Rises};
ghost use Rattle.hive_commit.specs.Stages.{closed_of};
ghost use Rattle.hive_alt.specs.Calls.{pair_calls};
ghost use Rattle.hive_alt.specs.Copies.{IsPair};
ghost use Rattle.hive_alt.specs.Schemes.{IsKeptAsEither};
ghost use Rattle.hive_alt.specs.Twin.{twin_of};

use crate::rewriting::rewrite;
use hive_commit::{closed_block, opened_block};
use hive_log::mark_dirty;
use nt_edge::{Disk, DiskStop, HiveFile};
use regf_base::{BaseBlock, numbers_fit, texts_fit};

/// Puts new bins data in the place of the old ones in both copies, the second one first. Each of them takes three
/// stages with one sync each: opened, its sectors that differ, closed. Once the second copy is closed it has the new
/// data, and the primary, opened, leaves the word to it.
pub(crate) fn change_pair<D: Disk>(
    disk: &mut D,
    base: &BaseBlock,
    old: &[u8],
    new: &[u8],
    root: u32,
) -> Result<BaseBlock, DiskStop>
    requires on { (D.state disk.old).on ≡ true }
    requires still { D.tells ≡ true → (D.state disk.old).flight ≡ [] }
    requires settled { D.tells ≡ true → IsPair (D.state disk.old).held base.now old.now }
    requires sized { is_bins_size (length new.now) ≡ true }
    // It makes these calls and no other; after a refusal a prefix of them.
    ensures made { MakesUntil (D.calls disk.old) (D.calls disk.new) (pair_calls base.now old.now new.now root) result }
    ensures answered { IfOk result (λ b. b ≡ closed_of base.now new.now root) }
    ensures still { D.tells ≡ true → OnOk result ((D.state disk.new).flight ≡ []) }
    ensures settled { D.tells ≡ true → OnOk result (IsPair (D.state disk.new).held (closed_of base.now new.now root) new.now) }
    ensures crash { D.tells ≡ true → EachCrash (D.state disk.new)
        (IsKeptAsEither twin_of base.now old.now (closed_of base.now new.now root) new.now) }
    ensures goes { Goes (D.state disk.old) (D.state disk.new) result }
    ensures done { (Rises (D.state disk.old).cuts (D.state disk.new).cuts → ⊥)
        → (Rises (D.state disk.old).faults (D.state disk.new).faults → ⊥)
        → (Rises (D.state disk.old).lacks (D.state disk.new).lacks → ⊥) → IsOk result }
{
    numbers_fit(base);
    texts_fit(base);
    let opened = opened_block(base);
    let closed = closed_block(base, new.len() as u32, root);
    let mut bitmap = [0; 4096];
    mark_dirty(old, new, &mut bitmap);
    rewrite(disk, HiveFile::Log, &opened, &closed, &bitmap, new)?;
    rewrite(disk, HiveFile::Primary, &opened, &closed, &bitmap, new)?;
    Ok(closed)
}
