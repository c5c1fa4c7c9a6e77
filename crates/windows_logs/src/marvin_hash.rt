//! Marvin32, the hash of the entries in a hive's log.
//!
//! `marvin` hashes bytes with the one seed that Windows takes for them. It asks nothing of the bytes. Rules: docs/format.md,
//! "The logs of Windows".

ghost use Rattle.std.specs.Prelude.{◌≡◌, ◌-◌, ◌/◌, ◌<◌, ◌∷◌, ◌++◌, length, replicate};
ghost use Rattle.nt_bytes.specs.Fields.{u32_in};
ghost use Rattle.windows_logs.specs.marvin_hash.Marvin.{rotated, mixed, state_after, marvin_of};

use nt_bytes::u32_at;

/// The two words of the state.
#[derive(Clone, Copy)]
struct State {
    low: u32,
    high: u32,
}

/// The two halves of the seed.
const SEED: State = State {
    low: 0x7a4e_55c5,
    high: 0x82ef_4d88,
};

fn rotated(low: u32, high: u32) -> State
    ensures { result ≡ rotated low high }
{
    let low = low.rotate_left(20).wrapping_add(high);
    let high = high.rotate_left(9) ^ low;
    State {
        low: low.rotate_left(27).wrapping_add(high),
        high: high.rotate_left(19),
    }
}

#[tactic(auto, unfolding(crate::specs::marvin_hash::Marvin::mixed))]
fn mixed(state: State, word: u32) -> State
    ensures { result ≡ mixed state word }
{
    let low = state.low.wrapping_add(word);
    rotated(low, state.high ^ low)
}

/// The state after the whole words of the bytes.
fn state_of_words(bytes: &[u8]) -> State
    ensures { result ≡ state_after (length bytes.now / 4) bytes.now }
{
    let mut state = SEED;
    for n in 0..bytes.len() / 4 {
        state = mixed(state, u32_at(bytes, 4 * n));
    }
    state
}

/// The word of the bytes that are left, fewer than four, with 0x80 after them.
fn last_word(rest: &[u8]) -> u32
    requires { length rest.now < 4 }
    ensures { result ≡ u32_in (rest.now ++ 0x80 ∷ replicate (3 - length rest.now) 0) 0 }
{
    let mut word = [0; 4];
    word[..rest.len()].copy_from_slice(rest);
    word[rest.len()] = 0x80;
    u32_at(&word, 0)
}

/// Marvin32 of the bytes, with the seed 0x82EF4D887A4E55C5.
pub fn marvin(bytes: &[u8]) -> u64
    ensures { result ≡ marvin_of bytes.now }
{
    let state = state_of_words(bytes);
    let state = mixed(state, last_word(&bytes[4 * (bytes.len() / 4)..]));
    let state = mixed(state, 0);
    u64::from(state.high) * 0x1_0000_0000 + u64::from(state.low)
}
