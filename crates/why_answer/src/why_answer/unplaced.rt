//! A name that no plan has.

ghost use Rattle.std.specs.Prelude.{◌≡◌, ◌++◌, IfOk, OnOk};
ghost use Rattle.start_model.specs.Entries.{control_in};
ghost use Rattle.answer_lines.specs.declared.why_lines.lines.WhyLine.TheVariants as lines;
ghost use Rattle.why_answer.specs.why_place.Place.{kind_of};
ghost use Rattle.why_lacks.specs.why_lacks.Lacks.{spelled};
ghost use Rattle.why_answer.specs.why_answer.Answer.{lines_with, key_lines, named_lines, unplaced_lines};

use crate::why_place::entry_line;
use answer_lines::why_lines::{WhyLine, WhyLines};
use boot_phases::service_entries::Entry;
use nt_bytes::{Names, Units};
use nt_names::startup_names::{ERROR_CONTROL, START, TYPE};
use reg_tree::Key;
use std::alloc::{AllocError, Global};
use why_needs::why_state::{ViewedRun, key_named, state_of};

/// A name as the set has it, else as it is.
fn spelled(alloc: Global, set: &Key, name: &[u16]) -> Result<Units, AllocError>
    ensures { IfOk result (λ units. units ≡ spelled set.now name.now) }
{
    match key_named(set, name) {
        Some(key) => key.name.copy(alloc),
        None => Units::from_slice(alloc, name),
    }
}

/// ErrorControl: missing or above 3 it is 1.
fn control_in(key: &Key) -> u32
    ensures { result ≡ control_in key.now }
{
    match key.dword(&ERROR_CONTROL) {
        Some(control) => if control <= 3 { control } else { 1 },
        None => 1,
    }
}

/// The line of an entry with these numbers.
fn line_with(alloc: Global, start: u32, kind: u32, control: u32) -> WhyLine
    ensures { result ≡ lines.Entry (kind_of kind) start kind control }
{
    entry_line(&Entry {
        name: Units::new(alloc),
        start,
        kind,
        control,
        group: None,
        tag: None,
        services: Names::new(alloc),
        groups: Names::new(alloc),
    })
}

/// Puts the line of an entry with these numbers after the others, where it has Start and Type.
fn push_with(
    alloc: Global,
    start: Option<u32>,
    kind: Option<u32>,
    control: u32,
    lines: &mut WhyLines,
) -> Result<(), AllocError>
    ensures { OnOk result (lines.new ≡ lines.old ++ lines_with start kind control) }
{
    match start {
        Some(start) => match kind {
            Some(kind) => lines.push(line_with(alloc, start, kind, control)),
            None => Ok(()),
        },
        None => Ok(()),
    }
}

/// Puts the line of a key's entry after the others.
fn push_key(alloc: Global, key: &Key, lines: &mut WhyLines) -> Result<(), AllocError>
    ensures { OnOk result (lines.new ≡ lines.old ++ key_lines key.now) }
{
    push_with(
        alloc,
        key.dword(&START),
        key.dword(&TYPE),
        control_in(key),
        lines,
    )
}

/// Puts the line of a name's entry in the set after the others.
fn push_entry(
    alloc: Global,
    set: &Key,
    name: &[u16],
    lines: &mut WhyLines,
) -> Result<(), AllocError>
    ensures { OnOk result (lines.new ≡ lines.old ++ named_lines set.now name.now) }
{
    match key_named(set, name) {
        Some(key) => push_key(alloc, key, lines),
        None => Ok(()),
    }
}

/// Puts the lines of a name that no plan has after the others.
pub(crate) fn push_unplaced(
    alloc: Global,
    run: &ViewedRun,
    name: &[u16],
    lines: &mut WhyLines,
) -> Result<(), AllocError>
    ensures { OnOk result (lines.new ≡ lines.old ++ unplaced_lines run.now name.now) }
{
    lines.push(WhyLine::Name(spelled(alloc, &run.run.set, name)?))?;
    push_entry(alloc, &run.run.set, name, lines)?;
    lines.push(WhyLine::State(state_of(run, name)))
}
