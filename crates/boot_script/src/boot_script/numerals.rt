//! Numbers in words.

ghost use Rattle.nt_bytes.specs.Reading.{Sees};
ghost use Rattle.boot_script.specs.boot_script.Words.{number_from};

use crate::boot_script::stop::ScriptFaultKind;
use nt_bytes::{are_digits, value_of};

/// The number that one to ten digits write, where it is at least `low`.
#[tactic(auto, unfolding(crate::specs::boot_script::Words::number_from))]
pub fn number(low: u32, word: &[u8]) -> Result<u32, ScriptFaultKind>
    ensures { Sees (λ n. n) result (number_from low word.now) }
{
    if !are_digits(word) || 10 < word.len() {
        return Err(ScriptFaultKind::Number);
    }
    let value = value_of(word);
    if value < u64::from(low) || u64::from(u32::MAX) < value {
        return Err(ScriptFaultKind::Number);
    }
    Ok(value as u32)
}
