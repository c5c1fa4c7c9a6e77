//! The events of a script.

ghost use Rattle.std.specs.Prelude.{◌≡◌, ◌==◌, ◌<◌, ◌≤◌, length, Err, IfOk, IfErr};
ghost use Rattle.std.specs.Str.Lines.{lines};
ghost use Rattle.boot_script.specs.declared.boot_script.stop.ScriptFaultKind.TheVariants.{TooLong};
ghost use Rattle.boot_script.specs.declared.boot_script.stop.ScriptStop.TheVariants as stops;
ghost use Rattle.boot_script.specs.boot_script.Words.{Gives};
ghost use Rattle.boot_script.specs.boot_script.Script.{trimmed_event, line_event, starts, events_from, script_of, IsBounded, GivesScript, TakesLine, RefusesLine};

use crate::boot_script::commands::event;
use crate::boot_script::event::{Event, Script};
use crate::boot_script::stop::{LineStop, ScriptFault, ScriptFaultKind, ScriptStop};
use crate::boot_script::words::{after_spaces, words_in};
use nt_bytes::{Row, first_line};
use std::alloc::Global;

/// The longest script, in bytes.
const MAX_LEN: usize = 65536;

/// The most `boot` lines of a script.
const MAX_STARTS: u32 = 64;

/// The event of a line that begins with no space; an empty line and a comment have none.
#[tactic(auto, unfolding(crate::specs::boot_script::Script::trimmed_event))]
fn event_of_trimmed(alloc: Global, line: &[u8]) -> Result<Option<Event>, LineStop>
    ensures { Gives (λ e. e) result (trimmed_event line.now) }
{
    match line {
        [] | [b'#', ..] => Ok(None),
        _ => {
            let words = words_in(alloc, line)?;
            event(alloc, &words)
        }
    }
}

fn event_of_line(alloc: Global, line: &[u8]) -> Result<Option<Event>, LineStop>
    ensures { Gives (λ e. e) result (line_event line.now) }
{
    event_of_trimmed(alloc, after_spaces(line))
}

fn is_start(event: &Option<Event>) -> bool
    ensures { result ≡ (starts event.now == 1) }
{
    matches!(event, Some(Event::Boot { .. }))
}

fn fault(kind: ScriptFaultKind, line: u32) -> ScriptStop
    ensures { result ≡ stops.Fault (record { kind = kind; line = line }) }
{
    ScriptStop::Fault(ScriptFault { kind, line })
}

/// The script that the text is. A text over 65,536 bytes is refused before all else, as line 0.
#[tactic(auto, unfolding(crate::specs::boot_script::Script::script_of))]
pub fn read_script(alloc: Global, text: &[u8]) -> Result<Script, ScriptStop>
    ensures exact { GivesScript result (script_of text.now) }
    ensures long { 65536 < length text.now → result ≡ Err (stops.Fault (record { kind = TooLong; line = 0 })) }
    ensures bounds { IfOk result IsBounded }
{
    if MAX_LEN < text.len() {
        return Err(fault(ScriptFaultKind::TooLong, 0));
    }
    events(alloc, text)
}

/// Adds the event of a line, and gives the number of `boot` lines with it.
fn take_line(
    alloc: Global,
    events: &mut Script,
    line: &[u8],
    number: u32,
    starts: u32,
) -> Result<u32, ScriptStop>
    requires few { starts ≤ 64 }
    ensures taken { IfOk result (TakesLine events.old events.new line.now starts) }
    ensures refused { IfErr result (RefusesLine line.now number starts) }
{
    let event = match event_of_line(alloc, line) {
        Ok(event) => event,
        Err(LineStop::Memory) => return Err(ScriptStop::Memory),
        Err(LineStop::Kind(kind)) => return Err(fault(kind, number)),
    };
    let starts = starts + u32::from(is_start(&event));
    if MAX_STARTS < starts {
        return Err(fault(ScriptFaultKind::TooManyStarts, number));
    }
    if let Some(event) = event {
        events.push(event)?;
    }
    Ok(starts)
}

fn events(alloc: Global, text: &[u8]) -> Result<Script, ScriptStop>
    requires { length text.now ≤ 65536 }
    ensures { GivesScript result (events_from 1 0 (lines text.now)) }
{
    let mut events = Row::new(alloc);
    let mut starts: u32 = 0;
    let mut number: u32 = 1;
    let mut rest = text;
    while !rest.is_empty() {
        let (line, after) = first_line(rest);
        starts = take_line(alloc, &mut events, line, number, starts)?;
        number += 1;
        rest = after;
    }
    Ok(events)
}
