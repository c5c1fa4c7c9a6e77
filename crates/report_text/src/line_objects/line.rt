//! The object of any line of a report.

ghost use Rattle.std.specs.Prelude.{◌≡◌, [], ◌∷◌, ◌++◌, codes, IfOk, OnOk};
ghost use Rattle.report_text.specs.line_text.Objects.{Number, Text, fields_text, object_text};
ghost use Rattle.report_words.specs.declared.line.Line.TheVariants as lines;
ghost use Rattle.report_text.specs.line_objects.Objects.{line_json, printed, select_fields};

use crate::boot_report::{
    CommitWord, EventWord, Line, RefusedWord, TryWord, commit_text, event_text, line_bytes,
    reason_text, save_text, set_text,
};
use crate::line_objects::objects::{
    push_end_object, push_entry_object, push_load_object, push_phase_object, push_unmet_object,
    push_verdict_object, push_word_object,
};
use crate::line_objects::words::outcome_text;
use crate::line_text::{
    ReportForm, close_object, open_object, push_number_field, push_text_field, push_word_field,
};
use nt_bytes::Bytes;
use std::alloc::{AllocError, Global};

// ---- objects by what their fields are

fn push_number_fields(out: &mut Vec<u8>, number: u32) -> Result<(), AllocError>
    ensures { OnOk result (out.new.items ≡ out.old.items ++ fields_text ((codes "number", Number number) ∷ [])) }
{
    push_number_field(out, b"number", u64::from(number))
}

fn push_number_object(out: &mut Vec<u8>, line: &[u8], number: u32) -> Result<(), AllocError>
    ensures { OnOk result (out.new.items ≡ out.old.items ++ object_text line.now ((codes "number", Number number) ∷ [])) }
{
    open_object(out, line)?;
    push_number_fields(out, number)?;
    close_object(out)
}

fn push_bare_object(out: &mut Vec<u8>, line: &[u8]) -> Result<(), AllocError>
    ensures { OnOk result (out.new.items ≡ out.old.items ++ object_text line.now []) }
{
    open_object(out, line)?;
    close_object(out)
}

fn push_name_object(out: &mut Vec<u8>, line: &[u8], name: &[u16]) -> Result<(), AllocError>
    ensures { OnOk result (out.new.items ≡ out.old.items ++ object_text line.now ((codes "name", Text name.now) ∷ [])) }
{
    open_object(out, line)?;
    push_text_field(out, b"name", name)?;
    close_object(out)
}

// ---- the lines of two fields and more

fn push_set_fields(out: &mut Vec<u8>, number: u32, by: &[u8]) -> Result<(), AllocError>
    ensures { OnOk result (out.new.items ≡ out.old.items ++ fields_text ((codes "number", Number number) ∷ (codes "by", Text by.now) ∷ [])) }
{
    push_number_field(out, b"number", u64::from(number))?;
    push_word_field(out, b"by", by)
}

fn push_set(out: &mut Vec<u8>, number: u32, by: &[u8]) -> Result<(), AllocError>
    ensures { OnOk result (out.new.items ≡ out.old.items ++ object_text (codes "set") ((codes "number", Number number) ∷ (codes "by", Text by.now) ∷ [])) }
{
    open_object(out, b"set")?;
    push_set_fields(out, number, by)?;
    close_object(out)
}

fn push_any_set(out: &mut Vec<u8>, number: u32, last_known_good: bool) -> Result<(), AllocError>
    ensures { OnOk result (out.new.items ≡ out.old.items ++ line_json (lines.Set number last_known_good)) }
{
    push_set(out, number, set_text(last_known_good).as_bytes())
}

fn push_commit_fields(out: &mut Vec<u8>, what: &[u8], sequence: u32) -> Result<(), AllocError>
    ensures { OnOk result (out.new.items ≡ out.old.items ++ fields_text ((codes "what", Text what.now) ∷ (codes "sequence", Number sequence) ∷ [])) }
{
    push_word_field(out, b"what", what)?;
    push_number_field(out, b"sequence", u64::from(sequence))
}

fn push_what(out: &mut Vec<u8>, what: &[u8], sequence: u32) -> Result<(), AllocError>
    ensures { OnOk result (out.new.items ≡ out.old.items ++ object_text (codes "commit") ((codes "what", Text what.now) ∷ (codes "sequence", Number sequence) ∷ [])) }
{
    open_object(out, b"commit")?;
    push_commit_fields(out, what, sequence)?;
    close_object(out)
}

fn push_commit(out: &mut Vec<u8>, what: CommitWord, sequence: u32) -> Result<(), AllocError>
    ensures { OnOk result (out.new.items ≡ out.old.items ++ line_json (lines.Commit what sequence)) }
{
    push_what(out, commit_text(what).as_bytes(), sequence)
}

fn push_first_two(out: &mut Vec<u8>, current: u32, default: u32) -> Result<(), AllocError>
    ensures { OnOk result (out.new.items ≡ out.old.items ++ fields_text ((codes "current", Number current) ∷ (codes "default", Number default) ∷ [])) }
{
    push_number_field(out, b"current", u64::from(current))?;
    push_number_field(out, b"default", u64::from(default))
}

fn push_last_two(out: &mut Vec<u8>, failed: u32, good: u32) -> Result<(), AllocError>
    ensures { OnOk result (out.new.items ≡ out.old.items ++ fields_text ((codes "failed", Number failed) ∷ (codes "good", Number good) ∷ [])) }
{
    push_number_field(out, b"failed", u64::from(failed))?;
    push_number_field(out, b"good", u64::from(good))
}

fn push_select_fields(
    out: &mut Vec<u8>,
    current: u32,
    default: u32,
    failed: u32,
    good: u32,
) -> Result<(), AllocError>
    ensures { OnOk result (out.new.items ≡ out.old.items ++ fields_text (select_fields current default failed good)) }
{
    push_first_two(out, current, default)?;
    push_last_two(out, failed, good)
}

fn push_select(
    out: &mut Vec<u8>,
    current: u32,
    default: u32,
    failed: u32,
    good: u32,
) -> Result<(), AllocError>
    ensures { OnOk result (out.new.items ≡ out.old.items ++ line_json (lines.Select current default failed good)) }
{
    open_object(out, b"select")?;
    push_select_fields(out, current, default, failed, good)?;
    close_object(out)
}

fn push_try_fields(out: &mut Vec<u8>, name: &[u16], outcome: &[u8]) -> Result<(), AllocError>
    ensures { OnOk result (out.new.items ≡ out.old.items ++ fields_text ((codes "name", Text name.now) ∷ (codes "outcome", Text outcome.now) ∷ [])) }
{
    push_text_field(out, b"name", name)?;
    push_word_field(out, b"outcome", outcome)
}

fn push_outcome(out: &mut Vec<u8>, name: &[u16], outcome: &[u8]) -> Result<(), AllocError>
    ensures { OnOk result (out.new.items ≡ out.old.items ++ object_text (codes "try") ((codes "name", Text name.now) ∷ (codes "outcome", Text outcome.now) ∷ [])) }
{
    open_object(out, b"try")?;
    push_try_fields(out, name, outcome)?;
    close_object(out)
}

fn push_try(out: &mut Vec<u8>, name: &[u16], outcome: TryWord) -> Result<(), AllocError>
    ensures { OnOk result (out.new.items ≡ out.old.items ++ line_json (lines.Try name.now outcome)) }
{
    push_outcome(out, name, outcome_text(outcome).as_bytes())
}

fn push_save_refused(out: &mut Vec<u8>, full: bool) -> Result<(), AllocError>
    ensures { OnOk result (out.new.items ≡ out.old.items ++ line_json (lines.SaveRefused full)) }
{
    push_word_object(out, b"save", b"refused", save_text(full).as_bytes())
}

fn push_refused_fields(out: &mut Vec<u8>, event: &[u8], why: &[u8]) -> Result<(), AllocError>
    ensures { OnOk result (out.new.items ≡ out.old.items ++ fields_text ((codes "event", Text event.now) ∷ (codes "word", Text why.now) ∷ [])) }
{
    push_word_field(out, b"event", event)?;
    push_word_field(out, b"word", why)
}

fn push_event(out: &mut Vec<u8>, event: &[u8], why: &[u8]) -> Result<(), AllocError>
    ensures { OnOk result (out.new.items ≡ out.old.items ++ object_text (codes "refused") ((codes "event", Text event.now) ∷ (codes "word", Text why.now) ∷ [])) }
{
    open_object(out, b"refused")?;
    push_refused_fields(out, event, why)?;
    close_object(out)
}

fn push_refused(out: &mut Vec<u8>, event: EventWord, why: RefusedWord) -> Result<(), AllocError>
    ensures { OnOk result (out.new.items ≡ out.old.items ++ line_json (lines.Refused event why)) }
{
    push_event(
        out,
        event_text(event).as_bytes(),
        reason_text(why).as_bytes(),
    )
}

// ---- any line

/// Appends the object of a line.
pub fn push_line_object(out: &mut Vec<u8>, line: &Line) -> Result<(), AllocError>
    ensures { OnOk result (out.new.items ≡ out.old.items ++ line_json line.now) }
{
    match line {
        Line::Start { number } => push_number_object(out, b"start", *number),
        Line::Entry { number, path } => push_entry_object(out, *number, path.as_slice()),
        Line::Load {
            sequence,
            recovered,
        } => push_load_object(out, *sequence, *recovered),
        Line::Set {
            number,
            last_known_good,
        } => push_any_set(out, *number, *last_known_good),
        Line::Commit { what, sequence } => push_commit(out, *what, *sequence),
        Line::Select {
            current,
            default,
            failed,
            good,
        } => push_select(out, *current, *default, *failed, *good),
        Line::Phase { word } => push_phase_object(out, *word),
        Line::Try { name, outcome } => push_try(out, name.as_slice(), *outcome),
        Line::Unmet { name } => push_unmet_object(out, name.as_slice()),
        Line::Vital { name } => push_name_object(out, b"vital", name.as_slice()),
        Line::Logon => push_bare_object(out, b"logon"),
        Line::SaveRefused { full } => push_save_refused(out, *full),
        Line::EditOk => push_bare_object(out, b"edit"),
        Line::FlushNothing => push_bare_object(out, b"flush"),
        Line::Refused { event, why } => push_refused(out, *event, *why),
        Line::Verdict { word } => push_verdict_object(out, *word),
        Line::End => push_end_object(out),
    }
}

fn object_bytes(alloc: Global, line: &Line) -> Result<Bytes, AllocError>
    ensures { IfOk result (λ b. b ≡ line_json line.now) }
{
    let mut out = Vec::new(alloc);
    push_line_object(&mut out, line)?;
    Ok(Bytes::from_vec(out))
}

/// A line in one of the two forms, LF at its end.
pub fn printed_bytes(alloc: Global, form: ReportForm, line: &Line) -> Result<Bytes, AllocError>
    ensures exact { IfOk result (λ b. b ≡ printed form line.now) }
{
    match form {
        ReportForm::Text => line_bytes(alloc, line),
        ReportForm::Json => object_bytes(alloc, line),
    }
}
