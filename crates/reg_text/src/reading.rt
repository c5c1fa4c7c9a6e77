//! A text as edits.

ghost use Rattle.std.specs.Prelude.{◌≡◌, map, None, Err, IfOk, IfErr};
ghost use Rattle.std.specs.List.{All};
ghost use Rattle.std.specs.Str.Lines.{lines};
ghost use Rattle.reg_tree.specs.Fitting.{Fits};
ghost use Rattle.reg_tree.specs.Makes.{step_of};
ghost use Rattle.reg_text.specs.declared.stop.RegFaultKind.TheVariants.{Mark};
ghost use Rattle.reg_text.specs.declared.stop.RegStop.TheVariants as stops;
ghost use Rattle.reg_text.specs.Gives.{at_line, Finds, FailsBy, GivesSteps};
ghost use Rattle.reg_text.specs.Reading.{number_of, line_said, lines_said, first_state, body_of, lines_behind, units_said, behind_mark, reg_steps_of};
ghost use Rattle.reg_text.specs.Takes.{TakesLine, GivesBody, GivesLines};

use crate::edits::say_line;
use crate::state::{State, first_state, number_of, unended};
use crate::stop::{RegFault, RegFaultKind, RegLineStop, RegStop};
use crate::units::{first_line, is_text, trim};
use nt_bytes::{Row, wide};
use reg_tree::Steps;
use std::alloc::Global;

fn fault(kind: RegFaultKind, line: u32) -> RegStop
    ensures { result ≡ stops.Fault (record { kind = kind; line = line }) }
{
    RegStop::Fault(RegFault { kind, line })
}

/// Adds the edits of a line, and answers what is kept after it.
fn take_line(alloc: Global, steps: &mut Steps, state: State, line: &[u16]) -> Result<State, RegStop>
    ensures taken { IfOk result (λ s. TakesLine steps.old steps.new (line_said state line.now) s) }
    ensures refused { IfErr result (λ e. FailsBy e (at_line (number_of state) (line_said state line.now))) }
{
    let number = number_of(&state);
    match say_line(alloc, steps, state, line) {
        Ok(after) => Ok(after),
        Err(RegLineStop::Memory) => Err(RegStop::Memory),
        Err(RegLineStop::Kind(kind)) => Err(fault(kind, number)),
    }
}

/// What follows the header.
#[tactic(auto, unfolding(crate::specs::Reading::body_of))]
fn body(units: &[u16]) -> Result<&[u16], RegFaultKind>
    ensures { GivesBody result (body_of (lines units.now)) }
{
    if units.is_empty() {
        return Err(RegFaultKind::Header);
    }
    let (line, rest) = first_line(units);
    if !is_text(trim(line), b"Windows Registry Editor Version 5.00") {
        return Err(RegFaultKind::Header);
    }
    Ok(rest)
}

/// The edits of the lines after the header, and what is kept after them.
fn read_lines(alloc: Global, body: &[u16]) -> Result<(Steps, State), RegStop>
    ensures { GivesLines result (lines_said first_state (lines body.now)) }
{
    let mut steps = Row::new(alloc);
    let mut state = first_state();
    let mut rest = body;
    while !rest.is_empty() {
        let (line, after) = first_line(rest);
        state = take_line(alloc, &mut steps, state, line)?;
        rest = after;
    }
    Ok((steps, state))
}

/// The edits of all lines, and what is kept after them.
fn read_behind(alloc: Global, units: &[u16]) -> Result<(Steps, State), RegStop>
    ensures { GivesLines result (lines_behind (body_of (lines units.now))) }
{
    match body(units) {
        Ok(body) => read_lines(alloc, body),
        Err(kind) => Err(fault(kind, 1)),
    }
}

/// The edits of the units after the mark, after which half a unit may stand.
#[tactic(auto, unfolding(crate::specs::Reading::units_said))]
fn read_units(alloc: Global, units: &[u16], odd: bool) -> Result<Steps, RegStop>
    ensures { GivesSteps result (units_said units.now odd) }
{
    let (steps, state) = read_behind(alloc, units)?;
    match unended(&state, units, odd) {
        Some(line) => Err(fault(RegFaultKind::Line, line)),
        None => Ok(steps),
    }
}

/// What follows the mark.
#[tactic(auto, unfolding(crate::specs::Reading::behind_mark))]
fn behind_mark(text: &[u8]) -> Option<&[u8]>
    ensures { Finds (λ b. b.now) result (behind_mark text.now) }
{
    match text {
        [0xff, 0xfe, bytes @ ..] => Some(bytes),
        _ => None,
    }
}

#[tactic(auto, unfolding(crate::specs::Reading::reg_steps_of))]
fn read_text(alloc: Global, text: &[u8]) -> Result<Steps, RegStop>
    ensures exact { GivesSteps result (reg_steps_of text.now) }
    ensures mark { behind_mark text.now ≡ None → result ≡ Err (stops.Fault (record { kind = Mark; line = 0 })) }
{
    match behind_mark(text) {
        Some(bytes) => {
            let units = wide(alloc, bytes)?;
            read_units(alloc, units.as_slice(), bytes.len() % 2 == 1)
        }
        None => Err(fault(RegFaultKind::Mark, 0)),
    }
}

/// The edits that the text stands for, or its first faulty line. None of them brings a key along.
pub fn read_reg(alloc: Global, text: &[u8]) -> Result<Steps, RegStop>
    ensures exact { GivesSteps result (reg_steps_of text.now) }
    ensures mark { behind_mark text.now ≡ None → result ≡ Err (stops.Fault (record { kind = Mark; line = 0 })) }
    ensures fits { IfOk result (λ steps. All Fits (map step_of steps)) }
{
    read_text(alloc, text)
}
