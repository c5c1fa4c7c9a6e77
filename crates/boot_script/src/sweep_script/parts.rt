//! What was read of a script so far.

ghost use Rattle.std.specs.Prelude.{◌≡◌, ◌==◌, ◌≤◌, [], None, false, IfErr, OnOk};
ghost use Rattle.boot_script.specs.boot_script.Script.{starts};
ghost use Rattle.boot_script.specs.declared.boot_script.stop.ScriptStop.TheVariants as stops;
ghost use Rattle.boot_script.specs.sweep_script.Sweep.{no_parts, placed, with_event, after_event, after_role, after_line, Takes, Refuses};

use crate::boot_script::{Event, LineStop, Script, ScriptFault, ScriptFaultKind, ScriptStop};
use crate::sweep_script::line::{Role, event_of, role_of};
use nt_bytes::Row;
use std::alloc::{AllocError, Global};

/// The most `boot` lines of a script.
const MAX_STARTS: u32 = 64;

/// What was read of a script so far.
#[derive(Drop)]
pub struct Parts {
    /// The events before the line `sweep`, in order.
    pub before: Script,
    /// Whether that line was there.
    pub marked: bool,
    /// The first event after it.
    pub event: Option<Event>,
    /// How many `boot` lines there were.
    pub starts: u32,
}

impl Parts {
    pub(crate) fn new(alloc: Global) -> Parts
        ensures { result ≡ no_parts }
    {
        Parts {
            before: Row::new(alloc),
            marked: false,
            event: None,
            starts: 0,
        }
    }
}

fn is_start(event: &Option<Event>) -> bool
    ensures { result ≡ (starts event.now == 1) }
{
    matches!(event, Some(Event::Boot { .. }))
}

fn fault(kind: ScriptFaultKind, line: u32) -> ScriptStop
    ensures { result ≡ stops.Fault (record { kind = kind; line = line }) }
{
    ScriptStop::Fault(ScriptFault { kind, line })
}

/// Puts an event in its place: before the line `sweep`, as the one after it, or nowhere.
fn put(parts: &mut Parts, event: Event) -> Result<(), AllocError>
    ensures { OnOk result (parts.new ≡ placed event parts.old) }
{
    if !parts.marked {
        parts.before.push(event)?;
        return Ok(());
    }
    if parts.event.is_none() {
        parts.event = Some(event);
    }
    Ok(())
}

/// Puts the event of a line in its place, if it has one, where there are that many `boot` lines with it.
fn put_any(parts: &mut Parts, event: Option<Event>, count: u32) -> Result<(), AllocError>
    ensures { OnOk result (parts.new ≡ with_event event count parts.old) }
{
    parts.starts = count;
    match event {
        Some(event) => put(parts, event),
        None => Ok(()),
    }
}

/// Takes the event of a line, if it has one, unless it is one start too many.
fn take_event(parts: &mut Parts, event: Option<Event>, number: u32) -> Result<(), ScriptStop>
    requires few { parts.old.starts ≤ 64 }
    ensures taken { OnOk result (Takes (after_event number parts.old (Ok event)) parts.new) }
    ensures refused { IfErr result (Refuses (after_event number parts.old (Ok event))) }
{
    let count = parts.starts + u32::from(is_start(&event));
    if MAX_STARTS < count {
        return Err(fault(ScriptFaultKind::TooManyStarts, number));
    }
    put_any(parts, event, count)?;
    Ok(())
}

/// Takes a line that is no mark and has no word at its front that is barred.
fn take_plain(alloc: Global, parts: &mut Parts, line: &[u8], number: u32) -> Result<(), ScriptStop>
    requires few { parts.old.starts ≤ 64 }
    ensures taken { OnOk result (Takes (after_role number parts.old line.now Role.Plain) parts.new) }
    ensures refused { IfErr result (Refuses (after_role number parts.old line.now Role.Plain)) }
{
    match event_of(alloc, line) {
        Ok(event) => take_event(parts, event, number),
        Err(LineStop::Kind(kind)) => Err(fault(kind, number)),
        Err(LineStop::Memory) => Err(ScriptStop::Memory),
    }
}

/// Takes the line `sweep`, unless it was there.
fn take_mark(parts: &mut Parts, number: u32) -> Result<(), ScriptStop>
    requires few { parts.old.starts ≤ 64 }
    ensures taken { OnOk result (Takes (after_role number parts.old [] Role.Mark) parts.new) }
    ensures refused { IfErr result (Refuses (after_role number parts.old [] Role.Mark)) }
{
    if parts.marked {
        return Err(fault(ScriptFaultKind::Word, number));
    }
    parts.marked = true;
    Ok(())
}

/// Takes one line.
pub(crate) fn take_line(
    alloc: Global,
    parts: &mut Parts,
    line: &[u8],
    number: u32,
) -> Result<(), ScriptStop>
    requires few { parts.old.starts ≤ 64 }
    ensures taken { OnOk result (Takes (after_line number parts.old line.now) parts.new) }
    ensures refused { IfErr result (Refuses (after_line number parts.old line.now)) }
{
    match role_of(alloc, line)? {
        Role::Mark => take_mark(parts, number),
        Role::Barred => Err(fault(ScriptFaultKind::Word, number)),
        Role::Plain => take_plain(alloc, parts, line, number),
    }
}
