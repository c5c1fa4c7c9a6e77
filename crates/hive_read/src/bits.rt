//! Bits in words: one for each slot.

ghost use Rattle.std.specs.Prelude.{◌≡◌, ◌≢◌, ◌<◌, ℕ, ◌==◌, not, ◌||◌, ◌/◌, length, IfOk, OnOk, OnErr};
ghost use Rattle.std.specs.Int.{bit_at};
ghost use Rattle.hive_read.specs.Marks.{has_bit, HaveSame};

use std::alloc::AllocError;

// The bit of a word.
fn bit(word: u64, place: u32) -> bool
    requires { place < 64 }
    ensures { result ≡ (bit_at word place == 1) }
{
    (word >> place) & 1 == 1
}

// The word with this bit set.
fn with_bit(word: u64, place: u32) -> u64
    requires { place < 64 }
    ensures set { bit_at result place ≡ 1 }
    ensures others { (i : ℕ) → i ≢ place → bit_at result i ≡ bit_at word i }
{
    word | (1 << place)
}

/// Is the bit of this slot set? Beyond the words none is.
pub(crate) fn is_set(words: &[u64], slot: usize) -> bool
    ensures { result ≡ has_bit words.now slot }
{
    if slot / 64 < words.len() {
        bit(words[slot / 64], (slot % 64) as u32)
    } else {
        false
    }
}

// Zeros after the words until one has the bit of this slot.
fn widen(words: &mut Vec<u64>, slot: usize) -> Result<(), AllocError>
    ensures same { HaveSame words.old.items words.new.items }
    ensures there { OnOk result (slot / 64 < length words.new.items) }
{
    if words.len() <= slot / 64 {
        return words.resize(slot / 64 + 1, 0);
    }
    Ok(())
}

/// Sets the bit of this slot. False where it was set already. Without memory for it no bit changes.
pub(crate) fn set(words: &mut Vec<u64>, slot: usize) -> Result<bool, AllocError>
    ensures fresh { IfOk result (λ fresh. fresh ≡ not (has_bit words.old.items slot)) }
    ensures ok { OnOk result ((i : ℕ) → has_bit words.new.items i ≡ (i == slot || has_bit words.old.items i)) }
    ensures err { OnErr result ((i : ℕ) → has_bit words.new.items i ≡ has_bit words.old.items i) }
{
    widen(words, slot)?;
    let place = (slot % 64) as u32;
    let word = words[slot / 64];
    words[slot / 64] = with_bit(word, place);
    Ok(!bit(word, place))
}
