//! Bits that are off, passed over eight at a time.

ghost use Rattle.std.specs.Prelude.{◌≡◌, ◌<◌, ◌≤◌, ◌+◌, ℕ, true, false, slice_index};
ghost use Rattle.hive_model.specs.Recovery.{bit};

use hive_log::has_bit;

/// The byte at a place, or 0 after the last.
fn byte_or_zero(bitmap: &[u8], at: usize) -> u8
    ensures { result ≡ slice_index bitmap.now at }
{
    match bitmap.get(at) {
        Some(byte) => *byte,
        None => 0,
    }
}

/// Whether a byte begins at this bit that has none on, and its eight bits are among the first `count`.
fn is_blank(bitmap: &[u8], i: usize, count: usize) -> bool
    requires { i < count }
    ensures off { result ≡ true → (j : ℕ) → i ≤ j → j < i + 8 → bit bitmap.now j ≡ false }
    ensures within { result ≡ true → i + 8 ≤ count }
{
    if i % 8 != 0 {
        return false;
    }
    if count - i < 8 {
        return false;
    }
    byte_or_zero(bitmap, i / 8) == 0
}

/// How many bits from this one on are off: those of a whole byte, or this one alone. 0 where it is on.
pub(crate) fn bits_off(bitmap: &[u8], i: usize, count: usize) -> usize
    requires { i < count }
    ensures off { (j : ℕ) → i ≤ j → j < i + result → bit bitmap.now j ≡ false }
    ensures on { result ≡ 0 → bit bitmap.now i ≡ true }
    ensures within { i + result ≤ count }
{
    if is_blank(bitmap, i, count) {
        return 8;
    }
    if has_bit(bitmap, i) {
        return 0;
    }
    1
}
