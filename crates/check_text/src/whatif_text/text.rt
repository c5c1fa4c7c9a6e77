//! The lines as texts.

ghost use Rattle.std.specs.Prelude.{◌≡◌, ◌++◌, OnOk, codes};
ghost use Rattle.start_model.specs.Lines.{name_text};
ghost use Rattle.check_text.specs.whatif_text.Lines.{named_text, set_text, verdict_text, of_text, fail_text, off_text, leans_text, line_text};

use crate::whatif_text::words::{judgement_word, need_word, set_word, state_word};
use boot_phases::error_control::Judgement;
use failure_effects::{EffectLine, EntryState, NeedWord};
use nt_bytes::Units;
use report_text::boot_report::{Verdict, push_name, verdict_text};
use report_text::line_text::push_number;
use std::alloc::AllocError;

/// Appends a name, and ends the line.
fn push_last(out: &mut Vec<u8>, name: &Units) -> Result<(), AllocError>
    ensures { OnOk result (out.new.items ≡ out.old.items ++ name_text name.now ++ codes "\n") }
{
    push_name(out, name.as_slice())?;
    out.extend_from_slice(b"\n")
}

fn push_set(out: &mut Vec<u8>, number: u32, on_good: bool) -> Result<(), AllocError>
    ensures { OnOk result (out.new.items ≡ out.old.items ++ set_text number on_good) }
{
    out.extend_from_slice(b"set ")?;
    push_number(out, u64::from(number))?;
    out.extend_from_slice(b" ")?;
    out.extend_from_slice(set_word(on_good))?;
    out.extend_from_slice(b"\n")
}

fn push_verdict(out: &mut Vec<u8>, verdict: Verdict) -> Result<(), AllocError>
    ensures { OnOk result (out.new.items ≡ out.old.items ++ verdict_text verdict) }
{
    out.extend_from_slice(b"verdict ")?;
    out.extend_from_slice(verdict_text(verdict).as_bytes())?;
    out.extend_from_slice(b"\n")
}

fn push_of(out: &mut Vec<u8>, state: EntryState, name: &Units) -> Result<(), AllocError>
    ensures { OnOk result (out.new.items ≡ out.old.items ++ of_text state name.now) }
{
    out.extend_from_slice(b"of ")?;
    out.extend_from_slice(state_word(state))?;
    out.extend_from_slice(b" ")?;
    push_last(out, name)
}

fn push_fail(
    out: &mut Vec<u8>,
    judgement: Judgement,
    lost: usize,
    name: &Units,
) -> Result<(), AllocError>
    ensures { OnOk result (out.new.items ≡ out.old.items ++ fail_text judgement lost name.now) }
{
    out.extend_from_slice(b"fail ")?;
    out.extend_from_slice(judgement_word(judgement))?;
    out.extend_from_slice(b" ")?;
    push_number(out, lost as u64)?;
    out.extend_from_slice(b" ")?;
    push_last(out, name)
}

fn push_off(out: &mut Vec<u8>, lost: usize, name: &Units) -> Result<(), AllocError>
    ensures { OnOk result (out.new.items ≡ out.old.items ++ off_text lost name.now) }
{
    out.extend_from_slice(b"off ")?;
    push_number(out, lost as u64)?;
    out.extend_from_slice(b" ")?;
    push_last(out, name)
}

fn push_named(out: &mut Vec<u8>, front: &[u8], name: &Units) -> Result<(), AllocError>
    ensures { OnOk result (out.new.items ≡ out.old.items ++ named_text front.now name.now) }
{
    out.extend_from_slice(front)?;
    push_last(out, name)
}

fn push_leans(
    out: &mut Vec<u8>,
    steps: usize,
    by: NeedWord,
    state: EntryState,
    name: &Units,
) -> Result<(), AllocError>
    ensures { OnOk result (out.new.items ≡ out.old.items ++ leans_text steps by state name.now) }
{
    out.extend_from_slice(b"leans ")?;
    push_number(out, steps as u64)?;
    out.extend_from_slice(b" ")?;
    out.extend_from_slice(need_word(by))?;
    out.extend_from_slice(b" ")?;
    out.extend_from_slice(state_word(state))?;
    out.extend_from_slice(b" ")?;
    push_last(out, name)
}

/// Appends a line as a text.
pub(crate) fn push_text(out: &mut Vec<u8>, line: EffectLine) -> Result<(), AllocError>
    ensures { OnOk result (out.new.items ≡ out.old.items ++ line_text line) }
{
    match line {
        EffectLine::Start => out.extend_from_slice(b"start 1\n"),
        EffectLine::Set { number, on_good } => push_set(out, number, on_good),
        EffectLine::Verdict(verdict) => push_verdict(out, verdict),
        EffectLine::Of { state, name } => push_of(out, state, &name),
        EffectLine::Fail {
            judgement,
            lost,
            name,
        } => push_fail(out, judgement, lost, &name),
        EffectLine::Off { lost, name } => push_off(out, lost, &name),
        EffectLine::Unmet(name) => push_named(out, b"unmet ", &name),
        EffectLine::Untaken(name) => push_named(out, b"untaken ", &name),
        EffectLine::Leans {
            steps,
            by,
            state,
            name,
        } => push_leans(out, steps, by, state, &name),
        EffectLine::End => out.extend_from_slice(b"end\n"),
    }
}
