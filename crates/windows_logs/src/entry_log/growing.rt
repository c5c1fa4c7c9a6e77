//! What an entry's pages cover.

ghost use Rattle.std.specs.Prelude.{◌≡◌, ◌<◌, ◌≤◌, ◌+◌, ◌*◌, ℕ, length, replicate, true, false, slice_index_or, IfOk};
ghost use Rattle.windows_logs.specs.entry_log.Entries.{IsWhole};
ghost use Rattle.windows_logs.specs.entry_log.Growing as book;
ghost use Rattle.windows_logs.specs.entry_log.Growing.{lengths_of, covers_all};
ghost use Rattle.windows_logs.specs.entry_log.Marks.{all_on, is_within, AreMarks, MarksMore};

use crate::entry_log::entry::{Entry, bytes_of};
use nt_bytes::u32_at;
use std::alloc::{AllocError, Global};

#[tactic(auto, unfolding(crate::specs::entry_log::Growing::lengths_of))]
fn lengths_of(bytes: &[u8], count: u32) -> u64
    requires { 40 + 8 * count ≤ length bytes.now }
    ensures { result ≡ lengths_of bytes.now count }
{
    let mut total = 0;
    for i in 0..count as usize {
        total += u64::from(u32_at(bytes, 44 + 8 * i));
    }
    total
}

/// Sets the marks from one on up to another.
fn set_marks(marks: &mut [bool], first: usize, end: usize)
    requires order { first ≤ end }
    requires inside { end ≤ length marks.old }
    ensures same_length { length marks.new ≡ length marks.old }
    ensures on { (k : ℕ) → first ≤ k → k < end → slice_index_or marks.new k false ≡ true }
    ensures off { (k : ℕ) → (first ≤ k → k < end → ⊥) → slice_index_or marks.new k false ≡ slice_index_or marks.old k false }
{
    for at in first..end {
        marks[at] = true;
    }
}

/// The number of the first sector that begins at this byte or after it.
fn sector_from(byte: u64) -> u64
    requires { byte ≤ 8589934592 }
    ensures reaches { byte ≤ 512 * result }
    ensures first { 512 * result < byte + 512 }
{
    (byte + 511) / 512
}

/// Sets the marks of the sectors that begin in a page; the first mark is that of the sector `from`.
fn mark_page(marks: &mut [bool], from: u32, place: u32, long: u32)
    ensures same_length { length marks.new ≡ length marks.old }
    ensures more { MarksMore (is_within place long) from marks.old marks.new }
{
    let from = u64::from(from);
    let room = marks.len() as u64;
    let end = sector_from(u64::from(place) + u64::from(long))
        .saturating_sub(from)
        .min(room);
    let first = sector_from(u64::from(place)).saturating_sub(from).min(end);
    set_marks(marks, first as usize, end as usize);
}

/// Sets the marks of the sectors that begin in a page; none is set before.
fn mark_pages(bytes: &[u8], count: u32, from: u32, marks: &mut [bool])
    requires fields { 40 + 8 * count ≤ length bytes.now }
    requires clear { AreMarks bytes.now 0 from marks.old }
    ensures same_length { length marks.new ≡ length marks.old }
    ensures marks { AreMarks bytes.now count from marks.new }
{
    for i in 0..count as usize {
        mark_page(
            marks,
            from,
            u32_at(bytes, 40 + 8 * i),
            u32_at(bytes, 44 + 8 * i),
        );
    }
}

#[tactic(auto, unfolding(crate::specs::entry_log::Marks::all_on))]
fn are_all_on(marks: &[bool]) -> bool
    ensures { result ≡ all_on marks.now (length marks.now) }
{
    let mut all = true;
    for i in 0..marks.len() {
        all = all && marks[i];
    }
    all
}

/// Whether each of the sectors from one on is in a page, by a mark for each of them: none is set before.
fn are_marked(bytes: &[u8], count: u32, from: u32, marks: &mut [bool]) -> bool
    requires fields { 40 + 8 * count ≤ length bytes.now }
    requires clear { AreMarks bytes.now 0 from marks.old }
    ensures { result ≡ covers_all bytes.now count from (length marks.old) }
{
    mark_pages(bytes, count, from, marks);
    are_all_on(marks)
}

/// That many marks, none of them set.
fn no_marks(alloc: Global, count: usize) -> Result<Vec<bool>, AllocError>
    ensures { IfOk result (λ marks. marks.items ≡ replicate count false) }
{
    vec![in alloc; false; count]
}

/// Whether each of these new sectors is in a page. Each page is looked at once.
fn are_covered(
    alloc: Global,
    bytes: &[u8],
    count: u32,
    from: u32,
    new: u32,
) -> Result<bool, AllocError>
    requires { 40 + 8 * count ≤ length bytes.now }
    ensures { IfOk result (λ all. all ≡ covers_all bytes.now count from new) }
{
    let mut marks = no_marks(alloc, new as usize)?;
    Ok(are_marked(bytes, count, from, &mut marks))
}

/// How many bytes the pages of a whole entry have.
pub fn page_bytes(log: &[u8], entry: &Entry) -> u64
    requires { IsWhole log.now entry.now }
    ensures { result ≡ book.page_bytes log.now entry.now }
{
    lengths_of(bytes_of(log, entry), entry.count)
}

/// Whether bins data of this size in bytes get no new sector by a whole entry but in its pages.
///
/// Its time is that of the entry's bytes and the new sectors, since the pages of a whole entry lie in its bytes. It takes a byte of
/// memory for each new sector.
pub fn grows_whole(alloc: Global, log: &[u8], entry: &Entry, size: u32) -> Result<bool, AllocError>
    requires { IsWhole log.now entry.now }
    ensures { IfOk result (λ whole. whole ≡ book.grows_whole log.now entry.now size) }
{
    let new = (entry.size / 512).saturating_sub(size / 512);
    are_covered(alloc, bytes_of(log, entry), entry.count, size / 512, new)
}
