//! The words about the disk: `cut` and `fault`.

ghost use Rattle.std.specs.Prelude.{map};
ghost use Rattle.nt_bytes.specs.Reading.{Sees};
ghost use Rattle.boot_script.specs.boot_script.Commands.{keep_of, call_of, cut_of, fault_of};

use crate::boot_script::event::Event;
use crate::boot_script::numerals::number;
use crate::boot_script::stop::ScriptFaultKind;
use nt_edge::{DiskCall, Keep};

#[tactic(auto, unfolding(crate::specs::boot_script::Commands::keep_of))]
fn keep(word: &[u8]) -> Result<Keep, ScriptFaultKind>
    ensures { Sees (λ k. k) result (keep_of word.now) }
{
    if word == b"none".as_slice() {
        return Ok(Keep::Nothing);
    }
    if word == b"all".as_slice() {
        return Ok(Keep::Everything);
    }
    if word == b"odd".as_slice() {
        return Ok(Keep::OddOnes);
    }
    if word == b"torn".as_slice() {
        return Ok(Keep::Torn);
    }
    Err(ScriptFaultKind::Word)
}

#[tactic(auto, unfolding(crate::specs::boot_script::Commands::call_of))]
fn call(word: &[u8]) -> Result<DiskCall, ScriptFaultKind>
    ensures { Sees (λ c. c) result (call_of word.now) }
{
    if word == b"read".as_slice() {
        return Ok(DiskCall::Read);
    }
    if word == b"write".as_slice() {
        return Ok(DiskCall::Write);
    }
    if word == b"sync".as_slice() {
        return Ok(DiskCall::Sync);
    }
    Err(ScriptFaultKind::Word)
}

#[tactic(auto, unfolding(crate::specs::boot_script::Commands::cut_of))]
pub fn cut(words: &[&[u8]]) -> Result<Event, ScriptFaultKind>
    ensures { Sees (λ e. e) result (cut_of (map (λ w. w.now) words.now)) }
{
    match words {
        [now, keep_word] => {
            if *now != b"now".as_slice() {
                return Err(ScriptFaultKind::Word);
            }
            let keep = keep(keep_word)?;
            Ok(Event::CutNow { keep })
        }
        [call_word, count, keep_word] => {
            let call = call(call_word)?;
            let keep = keep(keep_word)?;
            let n = number(1, count)?;
            Ok(Event::ArmCut { call, n, keep })
        }
        _ => Err(ScriptFaultKind::Word),
    }
}

#[tactic(auto, unfolding(crate::specs::boot_script::Commands::fault_of))]
pub fn fault(words: &[&[u8]]) -> Result<Event, ScriptFaultKind>
    ensures { Sees (λ e. e) result (fault_of (map (λ w. w.now) words.now)) }
{
    match words {
        [call_word, count] => {
            let call = call(call_word)?;
            let n = number(1, count)?;
            Ok(Event::ArmFault { call, n })
        }
        _ => Err(ScriptFaultKind::Word),
    }
}
