//! The lines as texts.

ghost use Rattle.std.specs.Prelude.{◌≡◌, ◌++◌, codes, OnOk};
ghost use Rattle.start_model.specs.Lines.{set_word};
ghost use Rattle.why_text.specs.why_text.Lines.{judgement_word, word_part, number_part, name_part, group_part, tag_part, state_parts, entry_parts, place_parts, line_parts, line_text};

use crate::why_text::words::{
    group_word, judgement_word, kind_word, line_word, need_word, order_word, phase_word,
    reason_word, set_word,
};
use answer_lines::why_lines::{EntryKind, GroupPlace, NameState, TagPlace, WhyLine};
use boot_phases::boot_phases::Phase;
use boot_phases::error_control::Judgement;
use nt_bytes::Units;
use report_text::boot_report::{push_name, verdict_text};
use report_text::line_text::push_number;
use std::alloc::AllocError;

fn push_word(out: &mut Vec<u8>, word: &[u8]) -> Result<(), AllocError>
    ensures { OnOk result (out.new.items ≡ out.old.items ++ word_part word.now) }
{
    out.extend_from_slice(b" ")?;
    out.extend_from_slice(word)
}

fn push_count(out: &mut Vec<u8>, number: u64) -> Result<(), AllocError>
    ensures { OnOk result (out.new.items ≡ out.old.items ++ number_part number) }
{
    out.extend_from_slice(b" ")?;
    push_number(out, number)
}

fn push_u32(out: &mut Vec<u8>, number: u32) -> Result<(), AllocError>
    ensures { OnOk result (out.new.items ≡ out.old.items ++ number_part number) }
{
    push_count(out, u64::from(number))
}

fn push_named(out: &mut Vec<u8>, name: &Units) -> Result<(), AllocError>
    ensures { OnOk result (out.new.items ≡ out.old.items ++ name_part name.now) }
{
    out.extend_from_slice(b" ")?;
    push_name(out, name.as_slice())
}

fn push_worded(out: &mut Vec<u8>, word: &[u8], name: &Units) -> Result<(), AllocError>
    ensures { OnOk result (out.new.items ≡ out.old.items ++ word_part word.now ++ name_part name.now) }
{
    push_word(out, word)?;
    push_named(out, name)
}

fn push_two(out: &mut Vec<u8>, one: &[u8], other: &[u8]) -> Result<(), AllocError>
    ensures { OnOk result (out.new.items ≡ out.old.items ++ word_part one.now ++ word_part other.now) }
{
    push_word(out, one)?;
    push_word(out, other)
}

fn push_lack(out: &mut Vec<u8>, of: &[u8], state: &[u8], name: &Units) -> Result<(), AllocError>
    ensures { OnOk result (out.new.items ≡ out.old.items ++ word_part of.now ++ word_part state.now ++ name_part name.now) }
{
    push_word(out, of)?;
    push_word(out, state)?;
    push_named(out, name)
}

fn push_set(out: &mut Vec<u8>, number: u32, on_good: bool) -> Result<(), AllocError>
    ensures { OnOk result (out.new.items ≡ out.old.items ++ number_part number ++ word_part (set_word on_good)) }
{
    push_u32(out, number)?;
    push_word(out, set_word(on_good))
}

fn push_vital(out: &mut Vec<u8>, name: &Units) -> Result<(), AllocError>
    ensures { OnOk result (out.new.items ≡ out.old.items ++ name_part name.now ++ word_part (codes "missing")) }
{
    push_named(out, name)?;
    push_word(out, b"missing")
}

fn push_field(out: &mut Vec<u8>, key: &[u8], number: u32) -> Result<(), AllocError>
    ensures { OnOk result (out.new.items ≡ out.old.items ++ word_part key.now ++ number_part number) }
{
    push_word(out, key)?;
    push_u32(out, number)
}

fn push_entry(
    out: &mut Vec<u8>,
    kind: EntryKind,
    start: u32,
    number: u32,
    control: u32,
) -> Result<(), AllocError>
    ensures { OnOk result (out.new.items ≡ out.old.items ++ entry_parts kind start number control) }
{
    push_word(out, kind_word(kind))?;
    push_field(out, b"start", start)?;
    push_field(out, b"type", number)?;
    push_field(out, b"control", control)
}

fn push_place(out: &mut Vec<u8>, phase: Phase, place: u64, of: u64) -> Result<(), AllocError>
    ensures { OnOk result (out.new.items ≡ out.old.items ++ place_parts phase place of) }
{
    push_word(out, phase_word(phase))?;
    push_count(out, place)?;
    push_word(out, b"of")?;
    push_count(out, of)
}

fn push_group_place(out: &mut Vec<u8>, place: GroupPlace) -> Result<(), AllocError>
    ensures { OnOk result (out.new.items ≡ out.old.items ++ group_part place) }
{
    match place {
        GroupPlace::Listed(place) => push_count(out, place),
        GroupPlace::Unlisted => push_word(out, b"unlisted"),
    }
}

fn push_group(out: &mut Vec<u8>, place: GroupPlace, name: &Units) -> Result<(), AllocError>
    ensures { OnOk result (out.new.items ≡ out.old.items ++ group_part place ++ name_part name.now) }
{
    push_group_place(out, place)?;
    push_named(out, name)
}

fn push_tag_place(out: &mut Vec<u8>, place: TagPlace) -> Result<(), AllocError>
    ensures { OnOk result (out.new.items ≡ out.old.items ++ tag_part place) }
{
    match place {
        TagPlace::Listed(place) => push_count(out, place),
        TagPlace::Unlisted => push_word(out, b"unlisted"),
        TagPlace::Idle => push_word(out, b"idle"),
    }
}

fn push_tag(out: &mut Vec<u8>, tag: u32, place: TagPlace) -> Result<(), AllocError>
    ensures { OnOk result (out.new.items ≡ out.old.items ++ number_part tag ++ tag_part place) }
{
    push_u32(out, tag)?;
    push_tag_place(out, place)
}

fn push_started(out: &mut Vec<u8>, number: u64) -> Result<(), AllocError>
    ensures { OnOk result (out.new.items ≡ out.old.items ++ word_part (codes "started") ++ number_part number) }
{
    push_word(out, b"started")?;
    push_count(out, number)
}

fn push_failed(out: &mut Vec<u8>, number: u64, judgement: Judgement) -> Result<(), AllocError>
    ensures { OnOk result (out.new.items ≡ out.old.items ++ word_part (codes "failed") ++ number_part number ++ word_part (judgement_word judgement)) }
{
    push_word(out, b"failed")?;
    push_count(out, number)?;
    push_word(out, judgement_word(judgement))
}

fn push_state(out: &mut Vec<u8>, state: NameState) -> Result<(), AllocError>
    ensures { OnOk result (out.new.items ≡ out.old.items ++ state_parts state) }
{
    match state {
        NameState::NoPhase => push_word(out, b"no-phase"),
        NameState::Started(number) => push_started(out, number),
        NameState::Failed(number, judgement) => push_failed(out, number, judgement),
        NameState::Unmet => push_word(out, b"unmet"),
        NameState::NotReached(phase) => push_two(out, b"not-reached", phase_word(phase)),
        NameState::Late => push_two(out, b"not-taken", b"late"),
        NameState::NotTaken(reason) => push_two(out, b"not-taken", reason_word(reason)),
    }
}

fn push_parts(out: &mut Vec<u8>, line: &WhyLine) -> Result<(), AllocError>
    ensures { OnOk result (out.new.items ≡ out.old.items ++ line_parts line.now) }
{
    match line {
        WhyLine::NoBoot | WhyLine::End => Ok(()),
        WhyLine::Start { number } => push_u32(out, *number),
        WhyLine::Set { number, on_good } => push_set(out, *number, *on_good),
        WhyLine::Verdict(verdict) => push_word(out, verdict_text(*verdict).as_bytes()),
        WhyLine::EndedBy(name) => push_named(out, name),
        WhyLine::Vital(name) => push_vital(out, name),
        WhyLine::Name(name) => push_named(out, name),
        WhyLine::Entry {
            kind,
            start,
            number,
            control,
        } => push_entry(out, *kind, *start, *number, *control),
        WhyLine::Place { phase, place, of } => push_place(out, *phase, *place, *of),
        WhyLine::Group { place, name } => push_group(out, *place, name),
        WhyLine::NoGroup => push_word(out, b"none"),
        WhyLine::Tag { tag, place } => push_tag(out, *tag, *place),
        WhyLine::NoTag => push_word(out, b"none"),
        WhyLine::Registry { place } => push_count(out, *place),
        WhyLine::After { by, name } => push_worded(out, order_word(*by), name),
        WhyLine::Before { by, name } => push_worded(out, order_word(*by), name),
        WhyLine::Pulled(name) => push_named(out, name),
        WhyLine::ReadyAtOnce => push_word(out, b"at-once"),
        WhyLine::ReadyAfter(name) => push_worded(out, b"after", name),
        WhyLine::State(state) => push_state(out, *state),
        WhyLine::Unmet { phase, name } => push_worded(out, phase_word(*phase), name),
        WhyLine::LackService { state, name } => push_lack(out, b"service", need_word(*state), name),
        WhyLine::LackGroup { has_members, name } => push_lack(
            out,
            b"group",
            group_word(*has_members),
            name,
        ),
        WhyLine::Member { state, name } => push_worded(out, need_word(*state), name),
        WhyLine::Cycle(name) => push_named(out, name),
    }
}

/// Appends a line as a text.
pub(crate) fn push_line_text(out: &mut Vec<u8>, line: &WhyLine) -> Result<(), AllocError>
    ensures { OnOk result (out.new.items ≡ out.old.items ++ line_text line.now) }
{
    out.extend_from_slice(line_word(line))?;
    push_parts(out, line)?;
    out.extend_from_slice(b"\n")
}
