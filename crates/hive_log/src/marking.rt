//! Which sectors of new bins data differ from the old ones.

ghost use Rattle.std.specs.Prelude.{◌≡◌, ℕ, ◌+◌, ◌*◌, ◌/◌, ◌<◌, ◌≤◌, true, false, length, take, drop};
ghost use Rattle.hive_model.specs.Base.{is_bins_size};
ghost use Rattle.hive_model.specs.Recovery.{bit, one_if};
ghost use Rattle.hive_model.specs.Log.{byte_of, dirty};

use crate::sectors::sector_of;

/// Turns on the bits of those sectors of the new data that differ from the old or lie past their end, and
/// turns off those of the others.
pub fn mark_dirty(old: &[u8], new: &[u8], into: &mut [u8; 4096])
    requires { is_bins_size (length new.now) ≡ true }
    ensures { (i : ℕ) → i < length new.now / 512 → bit into.new i ≡ dirty old.now new.now i }
{
    for k in 0..new.len() / 4096 {
        into[k] = page_byte(old, new, 8 * k);
    }
}

/// The bits of the eight sectors from this one on, the lowest first. Few pages differ, so each is first compared as a whole.
fn page_byte(old: &[u8], new: &[u8], first: usize) -> u8
    requires { 512 * first + 4096 ≤ length new.now }
    ensures { result ≡ byte_of (dirty old.now new.now) first }
{
    if is_same_page(old, new, first) {
        return 0;
    }
    dirty_byte(old, new, first)
}

/// Whether the eight sectors from this one on are there in the old data and equal.
fn is_same_page(old: &[u8], new: &[u8], first: usize) -> bool
    requires { 512 * first + 4096 ≤ length new.now }
    ensures { result ≡ true → (j : ℕ) → j < 8 → dirty old.now new.now (first + j) ≡ false }
{
    old.len() >= 512 * first + 4096 && page_of(old, first) == page_of(new, first)
}

/// The eight sectors from this one on.
fn page_of(bytes: &[u8], first: usize) -> &[u8]
    requires { 512 * first + 4096 ≤ length bytes.now }
    ensures { result.now ≡ take 4096 (drop (512 * first) bytes.now) }
{
    &bytes[512 * first..512 * first + 4096]
}

/// The bits of the eight sectors from this one on, the lowest first.
fn dirty_byte(old: &[u8], new: &[u8], first: usize) -> u8
    requires { 512 * first + 4096 ≤ length new.now }
    ensures { result ≡ byte_of (dirty old.now new.now) first }
{
    dirty_bit(old, new, first)
        + 2 * dirty_bit(old, new, first + 1)
        + 4 * dirty_bit(old, new, first + 2)
        + 8 * dirty_bit(old, new, first + 3)
        + 16 * dirty_bit(old, new, first + 4)
        + 32 * dirty_bit(old, new, first + 5)
        + 64 * dirty_bit(old, new, first + 6)
        + 128 * dirty_bit(old, new, first + 7)
}

/// 1 where this sector of the new data differs from the old or lies past its end, else 0.
fn dirty_bit(old: &[u8], new: &[u8], i: usize) -> u8
    requires { 512 * i + 512 ≤ length new.now }
    ensures value { result ≡ one_if (dirty old.now new.now i) }
    ensures small { result ≤ 1 }
{
    if old.len() < 512 * i + 512 || sector_of(old, i) != sector_of(new, i) {
        1
    } else {
        0
    }
}
