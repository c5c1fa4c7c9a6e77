//! The words about starts: `boot`, `go`, `fail` and `vital`.

ghost use Rattle.std.specs.Prelude.{map};
ghost use Rattle.nt_bytes.specs.Reading.{Sees};
ghost use Rattle.boot_script.specs.boot_script.Words.{Gives};
ghost use Rattle.boot_script.specs.boot_script.Commands.{boot_of, go_of, fail_of, vital_of};

use crate::boot_script::event::Event;
use crate::boot_script::numerals::number;
use crate::boot_script::stop::{LineStop, ScriptFaultKind};
use nt_bytes::{are_digits, narrow};
use std::alloc::Global;

#[tactic(auto, unfolding(crate::specs::boot_script::Commands::boot_of))]
pub fn boot(words: &[&[u8]]) -> Result<Event, ScriptFaultKind>
    ensures { Sees (λ e. e) result (boot_of (map (λ w. w.now) words.now)) }
{
    match words {
        [] => Ok(Event::Boot {
            entry: None,
            last_known_good: false,
        }),
        [word] => {
            if *word == b"lkg".as_slice() {
                return Ok(Event::Boot {
                    entry: None,
                    last_known_good: true,
                });
            }
            if !are_digits(word) {
                return Err(ScriptFaultKind::Word);
            }
            let entry = number(1, word)?;
            Ok(Event::Boot {
                entry: Some(entry),
                last_known_good: false,
            })
        }
        [word, good] => {
            if !are_digits(word) || *good != b"lkg".as_slice() {
                return Err(ScriptFaultKind::Word);
            }
            let entry = number(1, word)?;
            Ok(Event::Boot {
                entry: Some(entry),
                last_known_good: true,
            })
        }
        _ => Err(ScriptFaultKind::Word),
    }
}

#[tactic(auto, unfolding(crate::specs::boot_script::Commands::go_of))]
pub fn go(words: &[&[u8]]) -> Result<Event, ScriptFaultKind>
    ensures { Sees (λ e. e) result (go_of (map (λ w. w.now) words.now)) }
{
    match words {
        [] => Ok(Event::Go { steps: None }),
        [word] => {
            let steps = number(1, word)?;
            Ok(Event::Go { steps: Some(steps) })
        }
        _ => Err(ScriptFaultKind::Word),
    }
}

#[tactic(auto, unfolding(crate::specs::boot_script::Commands::fail_of))]
pub fn fail(alloc: Global, words: &[&[u8]]) -> Result<Event, LineStop>
    ensures { Gives (λ e. e) result (fail_of (map (λ w. w.now) words.now)) }
{
    let [name, word] = words else {
        return Err(LineStop::Kind(ScriptFaultKind::Word));
    };
    let count = number(0, word)?;
    let name = narrow(alloc, name)?;
    Ok(Event::Fail { name, count })
}

#[tactic(auto, unfolding(crate::specs::boot_script::Commands::vital_of))]
pub fn vital(alloc: Global, words: &[&[u8]]) -> Result<Event, LineStop>
    ensures { Gives (λ e. e) result (vital_of (map (λ w. w.now) words.now)) }
{
    let [name] = words else {
        return Err(LineStop::Kind(ScriptFaultKind::Word));
    };
    let name = narrow(alloc, name)?;
    Ok(Event::Vital { name })
}
