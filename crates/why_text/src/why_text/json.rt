//! The lines as objects of JSON.

ghost use Rattle.std.specs.Prelude.{◌≡◌, [], ◌∷◌, ◌++◌, codes, OnOk};
ghost use Rattle.report_text.specs.line_text.Objects.{Number, Text, fields_text};
ghost use Rattle.start_model.specs.Lines.{set_word};
ghost use Rattle.why_text.specs.why_text.Lines.{group_value, tag_value, state_fields, name_fields, worded_fields, lack_fields, entry_fields, place_fields, line_fields, line_json};

use crate::why_text::words::{
    group_word, judgement_word, kind_word, line_word, need_word, order_word, phase_word,
    reason_word, set_word,
};
use answer_lines::why_lines::{EntryKind, GroupPlace, NameState, TagPlace, WhyLine};
use boot_phases::boot_phases::Phase;
use nt_bytes::Units;
use report_text::boot_report::verdict_text;
use report_text::line_text::{
    close_object, open_object, push_number_field, push_text_field, push_word_field,
};
use std::alloc::AllocError;

fn push_word(out: &mut Vec<u8>, name: &[u8], word: &[u8]) -> Result<(), AllocError>
    ensures { OnOk result (out.new.items ≡ out.old.items ++ fields_text ((name.now, Text word.now) ∷ [])) }
{
    push_word_field(out, name, word)
}

fn push_count(out: &mut Vec<u8>, name: &[u8], number: u64) -> Result<(), AllocError>
    ensures { OnOk result (out.new.items ≡ out.old.items ++ fields_text ((name.now, Number number) ∷ [])) }
{
    push_number_field(out, name, number)
}

fn push_u32(out: &mut Vec<u8>, name: &[u8], number: u32) -> Result<(), AllocError>
    ensures { OnOk result (out.new.items ≡ out.old.items ++ fields_text ((name.now, Number number) ∷ [])) }
{
    push_count(out, name, u64::from(number))
}

fn push_name(out: &mut Vec<u8>, name: &Units) -> Result<(), AllocError>
    ensures { OnOk result (out.new.items ≡ out.old.items ++ fields_text (name_fields name.now)) }
{
    push_text_field(out, b"name", name.as_slice())
}

fn push_worded(out: &mut Vec<u8>, key: &[u8], word: &[u8], name: &Units) -> Result<(), AllocError>
    ensures { OnOk result (out.new.items ≡ out.old.items ++ fields_text (worded_fields key.now word.now name.now)) }
{
    push_word(out, key, word)?;
    push_name(out, name)
}

fn push_lack(out: &mut Vec<u8>, of: &[u8], state: &[u8], name: &Units) -> Result<(), AllocError>
    ensures { OnOk result (out.new.items ≡ out.old.items ++ fields_text (lack_fields of.now state.now name.now)) }
{
    push_word(out, b"of", of)?;
    push_worded(out, b"state", state, name)
}

fn push_set(out: &mut Vec<u8>, number: u32, on_good: bool) -> Result<(), AllocError>
    ensures { OnOk result (out.new.items ≡ out.old.items ++ fields_text ((codes "number", Number number) ∷ (codes "by", Text (set_word on_good)) ∷ [])) }
{
    push_u32(out, b"number", number)?;
    push_word(out, b"by", set_word(on_good))
}

fn push_entry(
    out: &mut Vec<u8>,
    kind: EntryKind,
    start: u32,
    number: u32,
    control: u32,
) -> Result<(), AllocError>
    ensures { OnOk result (out.new.items ≡ out.old.items ++ fields_text (entry_fields kind start number control)) }
{
    push_word(out, b"kind", kind_word(kind))?;
    push_u32(out, b"start", start)?;
    push_u32(out, b"type", number)?;
    push_u32(out, b"control", control)
}

fn push_place(out: &mut Vec<u8>, phase: Phase, place: u64, of: u64) -> Result<(), AllocError>
    ensures { OnOk result (out.new.items ≡ out.old.items ++ fields_text (place_fields phase place of)) }
{
    push_word(out, b"phase", phase_word(phase))?;
    push_count(out, b"place", place)?;
    push_count(out, b"of", of)
}

fn push_group_place(out: &mut Vec<u8>, place: GroupPlace) -> Result<(), AllocError>
    ensures { OnOk result (out.new.items ≡ out.old.items ++ fields_text ((codes "place", group_value place) ∷ [])) }
{
    match place {
        GroupPlace::Listed(place) => push_count(out, b"place", place),
        GroupPlace::Unlisted => push_word(out, b"place", b"unlisted"),
    }
}

fn push_group(out: &mut Vec<u8>, place: GroupPlace, name: &Units) -> Result<(), AllocError>
    ensures { OnOk result (out.new.items ≡ out.old.items ++ fields_text ((codes "place", group_value place) ∷ (codes "name", Text name.now) ∷ [])) }
{
    push_group_place(out, place)?;
    push_name(out, name)
}

fn push_tag_place(out: &mut Vec<u8>, place: TagPlace) -> Result<(), AllocError>
    ensures { OnOk result (out.new.items ≡ out.old.items ++ fields_text ((codes "place", tag_value place) ∷ [])) }
{
    match place {
        TagPlace::Listed(place) => push_count(out, b"place", place),
        TagPlace::Unlisted => push_word(out, b"place", b"unlisted"),
        TagPlace::Idle => push_word(out, b"place", b"idle"),
    }
}

fn push_tag(out: &mut Vec<u8>, tag: u32, place: TagPlace) -> Result<(), AllocError>
    ensures { OnOk result (out.new.items ≡ out.old.items ++ fields_text ((codes "tag", Number tag) ∷ (codes "place", tag_value place) ∷ [])) }
{
    push_u32(out, b"tag", tag)?;
    push_tag_place(out, place)
}

fn push_numbered(out: &mut Vec<u8>, word: &[u8], number: u64) -> Result<(), AllocError>
    ensures { OnOk result (out.new.items ≡ out.old.items ++ fields_text ((codes "word", Text word.now) ∷ (codes "number", Number number) ∷ [])) }
{
    push_word(out, b"word", word)?;
    push_count(out, b"number", number)
}

fn push_judged(
    out: &mut Vec<u8>,
    word: &[u8],
    number: u64,
    judgement: &[u8],
) -> Result<(), AllocError>
    ensures { OnOk result (out.new.items ≡ out.old.items ++ fields_text ((codes "word", Text word.now) ∷ (codes "number", Number number)
        ∷ (codes "judgement", Text judgement.now) ∷ [])) }
{
    push_numbered(out, word, number)?;
    push_word(out, b"judgement", judgement)
}

fn push_reached(out: &mut Vec<u8>, phase: Phase) -> Result<(), AllocError>
    ensures { OnOk result (out.new.items ≡ out.old.items ++ fields_text (state_fields (NameState.NotReached phase))) }
{
    push_word(out, b"word", b"not-reached")?;
    push_word(out, b"phase", phase_word(phase))
}

fn push_taken(out: &mut Vec<u8>, reason: &[u8]) -> Result<(), AllocError>
    ensures { OnOk result (out.new.items ≡ out.old.items ++ fields_text ((codes "word", Text (codes "not-taken"))
        ∷ (codes "reason", Text reason.now) ∷ [])) }
{
    push_word(out, b"word", b"not-taken")?;
    push_word(out, b"reason", reason)
}

fn push_state(out: &mut Vec<u8>, state: NameState) -> Result<(), AllocError>
    ensures { OnOk result (out.new.items ≡ out.old.items ++ fields_text (state_fields state)) }
{
    match state {
        NameState::NoPhase => push_word(out, b"word", b"no-phase"),
        NameState::Started(number) => push_numbered(out, b"started", number),
        NameState::Failed(number, judgement) => push_judged(
            out,
            b"failed",
            number,
            judgement_word(judgement),
        ),
        NameState::Unmet => push_word(out, b"word", b"unmet"),
        NameState::NotReached(phase) => push_reached(out, phase),
        NameState::Late => push_taken(out, b"late"),
        NameState::NotTaken(reason) => push_taken(out, reason_word(reason)),
    }
}

fn push_fields(out: &mut Vec<u8>, line: &WhyLine) -> Result<(), AllocError>
    ensures { OnOk result (out.new.items ≡ out.old.items ++ fields_text (line_fields line.now)) }
{
    match line {
        WhyLine::NoBoot | WhyLine::End => Ok(()),
        WhyLine::Start { number } => push_u32(out, b"number", *number),
        WhyLine::Set { number, on_good } => push_set(out, *number, *on_good),
        WhyLine::Verdict(verdict) => push_word(out, b"word", verdict_text(*verdict).as_bytes()),
        WhyLine::EndedBy(name) => push_name(out, name),
        WhyLine::Vital(name) => push_name(out, name),
        WhyLine::Name(name) => push_name(out, name),
        WhyLine::Entry {
            kind,
            start,
            number,
            control,
        } => push_entry(out, *kind, *start, *number, *control),
        WhyLine::Place { phase, place, of } => push_place(out, *phase, *place, *of),
        WhyLine::Group { place, name } => push_group(out, *place, name),
        WhyLine::NoGroup => push_word(out, b"place", b"none"),
        WhyLine::Tag { tag, place } => push_tag(out, *tag, *place),
        WhyLine::NoTag => push_word(out, b"tag", b"none"),
        WhyLine::Registry { place } => push_count(out, b"place", *place),
        WhyLine::After { by, name } => push_worded(out, b"by", order_word(*by), name),
        WhyLine::Before { by, name } => push_worded(out, b"by", order_word(*by), name),
        WhyLine::Pulled(name) => push_name(out, name),
        WhyLine::ReadyAtOnce => push_word(out, b"moment", b"at-once"),
        WhyLine::ReadyAfter(name) => push_worded(out, b"moment", b"after", name),
        WhyLine::State(state) => push_state(out, *state),
        WhyLine::Unmet { phase, name } => push_worded(out, b"phase", phase_word(*phase), name),
        WhyLine::LackService { state, name } => push_lack(out, b"service", need_word(*state), name),
        WhyLine::LackGroup { has_members, name } => push_lack(
            out,
            b"group",
            group_word(*has_members),
            name,
        ),
        WhyLine::Member { state, name } => push_worded(out, b"state", need_word(*state), name),
        WhyLine::Cycle(name) => push_name(out, name),
    }
}

/// Appends a line as an object.
pub(crate) fn push_line_json(out: &mut Vec<u8>, line: &WhyLine) -> Result<(), AllocError>
    ensures { OnOk result (out.new.items ≡ out.old.items ++ line_json line.now) }
{
    open_object(out, line_word(line))?;
    push_fields(out, line)?;
    close_object(out)
}
