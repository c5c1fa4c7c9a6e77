//! The lines as objects of JSON.

ghost use Rattle.std.specs.Prelude.{◌≡◌, [], ◌++◌, codes, OnOk};
ghost use Rattle.report_text.specs.line_text.Objects.{fields_text, object_text};
ghost use Rattle.check_text.specs.whatif_text.Lines.{start_fields, set_fields, verdict_fields, name_fields, of_fields, fail_fields, off_fields, leans_fields, line_json};

use crate::whatif_text::words::{judgement_word, need_word, set_word, state_word};
use boot_phases::error_control::Judgement;
use failure_effects::{EffectLine, EntryState, NeedWord};
use nt_bytes::Units;
use report_text::boot_report::{Verdict, verdict_text};
use report_text::line_text::{
    close_object, open_object, push_number_field, push_text_field, push_word_field,
};
use std::alloc::AllocError;

fn push_start_fields(out: &mut Vec<u8>) -> Result<(), AllocError>
    ensures { OnOk result (out.new.items ≡ out.old.items ++ fields_text start_fields) }
{
    push_number_field(out, b"number", 1)
}

fn push_start(out: &mut Vec<u8>) -> Result<(), AllocError>
    ensures { OnOk result (out.new.items ≡ out.old.items ++ object_text (codes "start") start_fields) }
{
    open_object(out, b"start")?;
    push_start_fields(out)?;
    close_object(out)
}

fn push_set_fields(out: &mut Vec<u8>, number: u32, on_good: bool) -> Result<(), AllocError>
    ensures { OnOk result (out.new.items ≡ out.old.items ++ fields_text (set_fields number on_good)) }
{
    push_number_field(out, b"number", u64::from(number))?;
    push_word_field(out, b"by", set_word(on_good))
}

fn push_set(out: &mut Vec<u8>, number: u32, on_good: bool) -> Result<(), AllocError>
    ensures { OnOk result (out.new.items ≡ out.old.items ++ object_text (codes "set") (set_fields number on_good)) }
{
    open_object(out, b"set")?;
    push_set_fields(out, number, on_good)?;
    close_object(out)
}

fn push_verdict(out: &mut Vec<u8>, verdict: Verdict) -> Result<(), AllocError>
    ensures { OnOk result (out.new.items ≡ out.old.items ++ object_text (codes "verdict") (verdict_fields verdict)) }
{
    open_object(out, b"verdict")?;
    push_word_field(out, b"word", verdict_text(verdict).as_bytes())?;
    close_object(out)
}

fn push_of_fields(out: &mut Vec<u8>, state: EntryState, name: &Units) -> Result<(), AllocError>
    ensures { OnOk result (out.new.items ≡ out.old.items ++ fields_text (of_fields state name.now)) }
{
    push_word_field(out, b"state", state_word(state))?;
    push_text_field(out, b"name", name.as_slice())
}

fn push_of(out: &mut Vec<u8>, state: EntryState, name: &Units) -> Result<(), AllocError>
    ensures { OnOk result (out.new.items ≡ out.old.items ++ object_text (codes "of") (of_fields state name.now)) }
{
    open_object(out, b"of")?;
    push_of_fields(out, state, name)?;
    close_object(out)
}

fn push_fail_fields(
    out: &mut Vec<u8>,
    judgement: Judgement,
    lost: usize,
    name: &Units,
) -> Result<(), AllocError>
    ensures { OnOk result (out.new.items ≡ out.old.items ++ fields_text (fail_fields judgement lost name.now)) }
{
    push_word_field(out, b"judgement", judgement_word(judgement))?;
    push_number_field(out, b"lost", lost as u64)?;
    push_text_field(out, b"name", name.as_slice())
}

fn push_fail(
    out: &mut Vec<u8>,
    judgement: Judgement,
    lost: usize,
    name: &Units,
) -> Result<(), AllocError>
    ensures { OnOk result (out.new.items ≡ out.old.items ++ object_text (codes "fail") (fail_fields judgement lost name.now)) }
{
    open_object(out, b"fail")?;
    push_fail_fields(out, judgement, lost, name)?;
    close_object(out)
}

fn push_off_fields(out: &mut Vec<u8>, lost: usize, name: &Units) -> Result<(), AllocError>
    ensures { OnOk result (out.new.items ≡ out.old.items ++ fields_text (off_fields lost name.now)) }
{
    push_number_field(out, b"lost", lost as u64)?;
    push_text_field(out, b"name", name.as_slice())
}

fn push_off(out: &mut Vec<u8>, lost: usize, name: &Units) -> Result<(), AllocError>
    ensures { OnOk result (out.new.items ≡ out.old.items ++ object_text (codes "off") (off_fields lost name.now)) }
{
    open_object(out, b"off")?;
    push_off_fields(out, lost, name)?;
    close_object(out)
}

fn push_named(out: &mut Vec<u8>, word: &[u8], name: &Units) -> Result<(), AllocError>
    ensures { OnOk result (out.new.items ≡ out.old.items ++ object_text word.now (name_fields name.now)) }
{
    open_object(out, word)?;
    push_text_field(out, b"name", name.as_slice())?;
    close_object(out)
}

fn push_leans_fields(
    out: &mut Vec<u8>,
    steps: usize,
    by: NeedWord,
    state: EntryState,
    name: &Units,
) -> Result<(), AllocError>
    ensures { OnOk result (out.new.items ≡ out.old.items ++ fields_text (leans_fields steps by state name.now)) }
{
    push_number_field(out, b"steps", steps as u64)?;
    push_word_field(out, b"by", need_word(by))?;
    push_word_field(out, b"state", state_word(state))?;
    push_text_field(out, b"name", name.as_slice())
}

fn push_leans(
    out: &mut Vec<u8>,
    steps: usize,
    by: NeedWord,
    state: EntryState,
    name: &Units,
) -> Result<(), AllocError>
    ensures { OnOk result (out.new.items ≡ out.old.items ++ object_text (codes "leans") (leans_fields steps by state name.now)) }
{
    open_object(out, b"leans")?;
    push_leans_fields(out, steps, by, state, name)?;
    close_object(out)
}

fn push_end(out: &mut Vec<u8>) -> Result<(), AllocError>
    ensures { OnOk result (out.new.items ≡ out.old.items ++ object_text (codes "end") []) }
{
    open_object(out, b"end")?;
    close_object(out)
}

/// Appends a line as an object.
pub(crate) fn push_json(out: &mut Vec<u8>, line: EffectLine) -> Result<(), AllocError>
    ensures { OnOk result (out.new.items ≡ out.old.items ++ line_json line) }
{
    match line {
        EffectLine::Start => push_start(out),
        EffectLine::Set { number, on_good } => push_set(out, number, on_good),
        EffectLine::Verdict(verdict) => push_verdict(out, verdict),
        EffectLine::Of { state, name } => push_of(out, state, &name),
        EffectLine::Fail {
            judgement,
            lost,
            name,
        } => push_fail(out, judgement, lost, &name),
        EffectLine::Off { lost, name } => push_off(out, lost, &name),
        EffectLine::Unmet(name) => push_named(out, b"unmet", &name),
        EffectLine::Untaken(name) => push_named(out, b"untaken", &name),
        EffectLine::Leans {
            steps,
            by,
            state,
            name,
        } => push_leans(out, steps, by, state, &name),
        EffectLine::End => push_end(out),
    }
}
