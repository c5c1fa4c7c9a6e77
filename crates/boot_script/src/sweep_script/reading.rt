//! The whole script.

ghost use Rattle.std.specs.Prelude.{◌≡◌, ◌≤◌, length, IfErr, IfOk, OnOk};
ghost use Rattle.std.specs.List.{All};
ghost use Rattle.std.specs.Str.Lines.{lines};
ghost use Rattle.boot_script.specs.boot_script.Script.{HasCounts};
ghost use Rattle.boot_script.specs.sweep_script.Sweep.{no_parts, parts_from, sweep_by, sweep_of, Takes, Refuses, GivesSweep, events_of, IsUnordered};

use crate::boot_script::{Event, Script, ScriptFault, ScriptFaultKind, ScriptStop};
use crate::sweep_script::parts::{Parts, take_line};
use crate::sweep_script::stop::{SweepFault, SweepStop};
use nt_bytes::first_line;
use std::alloc::Global;

/// The longest script, in bytes.
const MAX_LEN: usize = 65536;

/// The script of a sweep.
#[derive(Drop)]
pub struct SweepScript {
    /// The events before the line `sweep`, in order.
    pub before: Script,
    /// The first event after it.
    pub event: Event,
}

/// Reads the lines of a text, up to the first faulty one.
fn read_lines(alloc: Global, text: &[u8], parts: &mut Parts) -> Result<(), ScriptStop>
    requires few { length text.now ≤ 65536 }
    requires none { parts.old ≡ no_parts }
    ensures taken { OnOk result (Takes (parts_from 1 no_parts (lines text.now)) parts.new) }
    ensures refused { IfErr result (Refuses (parts_from 1 no_parts (lines text.now))) }
{
    let mut number: u32 = 1;
    let mut rest = text;
    while !rest.is_empty() {
        let (line, after) = first_line(rest);
        take_line(alloc, parts, line, number)?;
        number += 1;
        rest = after;
    }
    Ok(())
}

/// The script of what was read of all lines.
fn whole(parts: Parts) -> Result<SweepScript, SweepStop>
    ensures { GivesSweep result (sweep_by (Ok parts)) }
{
    let Parts { before, event, .. } = parts;
    match event {
        Some(event) => Ok(SweepScript { before, event }),
        None => Err(SweepStop::Fault(SweepFault::NoSweep)),
    }
}

/// The script that the text is. A text over 65,536 bytes is refused before all else, as line 0; that no line is `sweep`, or no event
/// stands after it, comes after all faults of lines.
#[tactic(auto, unfolding(crate::specs::sweep_script::Sweep::sweep_of))]
pub fn read_sweep(alloc: Global, text: &[u8]) -> Result<SweepScript, SweepStop>
    ensures exact { GivesSweep result (sweep_of text.now) }
    ensures counts { IfOk result (λ script. All HasCounts (events_of script)) }
    ensures unordered { IfOk result (λ script. All IsUnordered (events_of script)) }
{
    if MAX_LEN < text.len() {
        return Err(SweepStop::Fault(SweepFault::Script(ScriptFault {
            kind: ScriptFaultKind::TooLong,
            line: 0,
        })));
    }
    let mut parts = Parts::new(alloc);
    match read_lines(alloc, text, &mut parts) {
        Ok(()) => whole(parts),
        Err(ScriptStop::Fault(fault)) => Err(SweepStop::Fault(SweepFault::Script(fault))),
        Err(ScriptStop::Memory) => Err(SweepStop::Memory),
    }
}
