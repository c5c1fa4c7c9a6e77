//! A load that repairs: of two copies that are not both good and equal, the other one is rewritten.

ghost use Rattle.std.specs.Prelude.{◌≡◌, ◌<◌, ◌*◌, true, false, ℕ, List, [], length, Ok, Err, IfOk, OnOk};
ghost use Rattle.nt_bytes.specs.declared.fault.HiveFault.{HiveFault};
ghost use Rattle.hive_model.specs.Base.{Base, is_bins_size};
ghost use Rattle.hive_model.specs.Image.{Primary, Log};
ghost use Rattle.hive_model.specs.Recovery.{bit};
ghost use Rattle.nt_edge.specs.Calls.{MakesUntil};
ghost use Rattle.nt_edge.specs.Crash.{EachCrash};
ghost use Rattle.nt_edge.specs.Frames.{Goes};
ghost use Rattle.hive_log.specs.Stops.{Reads, IsLoadOn};
ghost use Rattle.hive_commit.specs.Untouched.{IsUntouched};
ghost use Rattle.hive_alt.specs.Calls.{mend_calls, IsMending, IsPairLoad};
ghost use Rattle.hive_alt.specs.Copies.{HasCopy, IsPair, IsBehind, unfinished_of};
ghost use Rattle.hive_alt.specs.Schemes.{IsKeptAs, AreOf, MakesLoad};
ghost use Rattle.hive_alt.specs.Twin.{twin_of};

use crate::pair::{Seen, read_pair};
use crate::rewriting::rewrite;
use crate::writing::{write_copy_bins, write_copy_block};
use hive_log::{LoadStop, Recovered, mark_dirty};
use nt_edge::{Disk, DiskStop, HiveFile};
use regf_base::{BaseBlock, numbers_fit, texts_fit};
use std::alloc::Global;

/// The base block that opens a second copy which is repaired: its second number is the one before.
fn unfinished_block(base: &BaseBlock) -> BaseBlock
    ensures { result ≡ unfinished_of base.now }
{
    BaseBlock {
        second: base.first.wrapping_sub(1),
        ..*base
    }
}

/// Turns on the bit of each sector of these data.
fn mark_all(bins: &[u8], into: &mut [u8; 4096])
    requires { is_bins_size (length bins.now) ≡ true }
    ensures { (i : ℕ) → 512 * i < length bins.now → bit into.new i ≡ true }
{
    mark_dirty(&[], bins, into);
}

/// The primary stands: the second copy is opened, and gets all bins sectors and the base block.
fn mend_second<D: Disk>(disk: &mut D, base: &BaseBlock, bins: &[u8]) -> Result<(), DiskStop>
    requires on { (D.state disk.old).on ≡ true }
    requires still { D.tells ≡ true → (D.state disk.old).flight ≡ [] }
    requires first { D.tells ≡ true → HasCopy Primary (D.state disk.old).held base.now bins.now }
    requires sized { is_bins_size (length bins.now) ≡ true }
    ensures made { MakesUntil (D.calls disk.old) (D.calls disk.new) (mend_calls false base.now bins.now) result }
    ensures crash { D.tells ≡ true → EachCrash (D.state disk.new) (IsKeptAs twin_of base.now bins.now) }
    ensures still { D.tells ≡ true → OnOk result ((D.state disk.new).flight ≡ []) }
    ensures pair { D.tells ≡ true → OnOk result (IsPair (D.state disk.new).held base.now bins.now) }
    ensures goes { Goes (D.state disk.old) (D.state disk.new) result }
{
    numbers_fit(base);
    texts_fit(base);
    let mut bitmap = [0; 4096];
    mark_all(bins, &mut bitmap);
    let opened = unfinished_block(base);
    rewrite(disk, HiveFile::Log, &opened, base, &bitmap, bins)?;
    Ok(())
}

/// The second copy stands: the primary gets all bins sectors, and then the base block.
fn mend_first<D: Disk>(disk: &mut D, base: &BaseBlock, bins: &[u8]) -> Result<(), DiskStop>
    requires on { (D.state disk.old).on ≡ true }
    requires still { D.tells ≡ true → (D.state disk.old).flight ≡ [] }
    requires behind { D.tells ≡ true → IsBehind (D.state disk.old).held base.now }
    requires second { D.tells ≡ true → HasCopy Log (D.state disk.old).held base.now bins.now }
    requires sized { is_bins_size (length bins.now) ≡ true }
    ensures made { MakesUntil (D.calls disk.old) (D.calls disk.new) (mend_calls true base.now bins.now) result }
    ensures crash { D.tells ≡ true → EachCrash (D.state disk.new) (IsKeptAs twin_of base.now bins.now) }
    ensures still { D.tells ≡ true → OnOk result ((D.state disk.new).flight ≡ []) }
    ensures pair { D.tells ≡ true → OnOk result (IsPair (D.state disk.new).held base.now bins.now) }
    ensures goes { Goes (D.state disk.old) (D.state disk.new) result }
{
    numbers_fit(base);
    texts_fit(base);
    let mut bitmap = [0; 4096];
    mark_all(bins, &mut bitmap);
    write_copy_bins(disk, HiveFile::Primary, &bitmap, bins)?;
    write_copy_block(disk, HiveFile::Primary, base)?;
    Ok(())
}

/// Writes the copy again that does not stand.
fn mend<D: Disk>(disk: &mut D, second: bool, base: &BaseBlock, bins: &[u8]) -> Result<(), DiskStop>
    requires on { (D.state disk.old).on ≡ true }
    requires still { D.tells ≡ true → (D.state disk.old).flight ≡ [] }
    requires first { D.tells ≡ true → second ≡ false → HasCopy Primary (D.state disk.old).held base.now bins.now }
    requires behind { D.tells ≡ true → second ≡ true → IsBehind (D.state disk.old).held base.now }
    requires second { D.tells ≡ true → second ≡ true → HasCopy Log (D.state disk.old).held base.now bins.now }
    requires sized { is_bins_size (length bins.now) ≡ true }
    ensures made { MakesUntil (D.calls disk.old) (D.calls disk.new) (mend_calls second base.now bins.now) result }
    ensures crash { D.tells ≡ true → EachCrash (D.state disk.new) (IsKeptAs twin_of base.now bins.now) }
    ensures still { D.tells ≡ true → OnOk result ((D.state disk.new).flight ≡ []) }
    ensures pair { D.tells ≡ true → OnOk result (IsPair (D.state disk.new).held base.now bins.now) }
    ensures goes { Goes (D.state disk.old) (D.state disk.new) result }
{
    if second {
        mend_first(disk, base, bins)
    } else {
        mend_second(disk, base, bins)
    }
}

/// Reads what the disk stands for, and leaves both copies good and equal.
pub(crate) fn load_pair<D: Disk>(alloc: Global, disk: &mut D) -> Result<Recovered, LoadStop>
    requires on { (D.state disk.old).on ≡ true }
    requires still { D.tells ≡ true → (D.state disk.old).flight ≡ [] }
    ensures made { MakesLoad (D.calls disk.old) (D.calls disk.new) IsMending
        (λ calls. D.tells ≡ true → AreOf (IsPairLoad (D.state disk.old).held) result calls) }
    ensures exact { D.tells ≡ true → Reads result (twin_of (D.state disk.old).held) }
    ensures sized { IfOk result (λ r. is_bins_size (length r.bins) ≡ true) }
    ensures still { D.tells ≡ true → OnOk result ((D.state disk.new).flight ≡ []) }
    ensures mended { D.tells ≡ true → IfOk result (λ r. IsPair (D.state disk.new).held r.base r.bins) }
    ensures crash { D.tells ≡ true → (base : Base) (bins : List ℕ) → IsKeptAs twin_of base bins (D.state disk.old).held
        → EachCrash (D.state disk.new) (IsKeptAs twin_of base bins) }
    ensures clean { D.tells ≡ true → (base : Base) (bins : List ℕ) → IsPair (D.state disk.old).held base bins
        → IsUntouched (D.state disk.old) (D.state disk.new) }
    ensures faulty { D.tells ≡ true → (fault : HiveFault) → twin_of (D.state disk.old).held ≡ Err fault
        → IsUntouched (D.state disk.old) (D.state disk.new) }
    ensures goes { IsLoadOn (D.state disk.old) (D.state disk.new) result }
{
    let Seen { found, second } = read_pair(alloc, disk)?;
    if found.dirty {
        mend(disk, second, &found.base, found.bins.as_slice())?;
    }
    Ok(found)
}
