//! Which sectors of new bins data differ from the old ones, by the pages of these that were kept.

ghost use Rattle.std.specs.Prelude.{◌≡◌, ◌+◌, ◌*◌, ◌≤◌, true, length};
ghost use Rattle.hive_model.specs.Base.{is_bins_size};
ghost use Rattle.hive_model.specs.Recovery.{one_if, sector};
ghost use Rattle.hive_model.specs.Log.{byte_of, dirty};
ghost use Rattle.cell_tables.specs.saved_pages.Overlay.{before, page_at, IsCovered};
ghost use Rattle.hive_commit.specs.Stages.{AreMarked};

use cell_tables::saved_pages::SavedPages;

/// Turns on the bits of those sectors of the new data that differ from the old or lie past their end, and turns off those
/// of the others. Only the pages that were kept are compared.
pub(crate) fn mark_kept(pages: &SavedPages, new: &[u8], into: &mut [u8; 4096])
    requires sized { is_bins_size (length new.now) ≡ true }
    requires covered { IsCovered pages.now (length new.now) }
    ensures { AreMarked (before pages.now new.now) new.now into.new }
{
    for k in 0..new.len() / 4096 {
        into[k] = page_byte(pages, new, k);
    }
}

/// The bits of the eight sectors of a page of the new data: all where it lies past the old ones, none where the old page
/// was not kept, else those of the sectors that differ.
fn page_byte(pages: &SavedPages, new: &[u8], k: usize) -> u8
    requires covered { IsCovered pages.now (length new.now) }
    requires inside { 4096 * k + 4096 ≤ length new.now }
    ensures { result ≡ byte_of (dirty (before pages.now new.now) new.now) (8 * k) }
{
    if k >= pages.len() {
        return 255;
    }
    match pages.kept(k) {
        None => 0,
        Some(old) => dirty_byte(old, page_of(new, k)),
    }
}

/// The page of that number.
fn page_of(bytes: &[u8], k: usize) -> &[u8]
    requires { 4096 * k + 4096 ≤ length bytes.now }
    ensures value { result.now ≡ page_at k bytes.now }
    ensures long { length result.now ≡ 4096 }
{
    &bytes[4096 * k..4096 * k + 4096]
}

/// The bits of the eight sectors of a page, the lowest first.
fn dirty_byte(old: &[u8], new: &[u8]) -> u8
    requires old_long { length old.now ≡ 4096 }
    requires new_long { length new.now ≡ 4096 }
    ensures { result ≡ byte_of (dirty old.now new.now) 0 }
{
    dirty_bit(old, new, 0)
        + 2 * dirty_bit(old, new, 1)
        + 4 * dirty_bit(old, new, 2)
        + 8 * dirty_bit(old, new, 3)
        + 16 * dirty_bit(old, new, 4)
        + 32 * dirty_bit(old, new, 5)
        + 64 * dirty_bit(old, new, 6)
        + 128 * dirty_bit(old, new, 7)
}

/// 1 where this sector of the new page differs from the old, else 0.
fn dirty_bit(old: &[u8], new: &[u8], i: usize) -> u8
    requires old_long { 512 * i + 512 ≤ length old.now }
    requires new_long { 512 * i + 512 ≤ length new.now }
    ensures value { result ≡ one_if (dirty old.now new.now i) }
    ensures small { result ≤ 1 }
{
    if sector_of(old, i) != sector_of(new, i) {
        1
    } else {
        0
    }
}

/// The sector of that number.
fn sector_of(bytes: &[u8], i: usize) -> &[u8]
    requires { 512 * i + 512 ≤ length bytes.now }
    ensures value { result.now ≡ sector bytes.now i }
    ensures long { length result.now ≡ 512 }
{
    &bytes[512 * i..512 * i + 512]
}
