//! The lines of the report, each in one of the two forms.

ghost use Rattle.std.specs.Prelude.{◌≡◌, [], ◌∷◌, ◌++◌, codes, OnOk};
ghost use Rattle.start_model.specs.Lines.{name_text};
ghost use Rattle.report_text.specs.line_text.Objects.{Text, fields_text, object_text};
ghost use Rattle.service_control.specs.declared.stop.ControlStop.TheVariants as stops;
ghost use Rattle.control_command.specs.Report.{name_line, name_line_in, name_lines_in, stop_text, stop_fields, refused_line, refused_json, refused_line_in, end_line_in, no_set_lines_in};

use nt_bytes::Units;
use report_text::boot_report::{Verdict, push_name};
use report_text::line_objects::{push_end_object, push_verdict_object};
use report_text::line_text::{
    ReportForm, close_object, open_object, push_text_field, push_word_field,
};
use service_control::ControlStop;
use std::alloc::AllocError;

/// A word and a name, as text.
fn push_name_text(out: &mut Vec<u8>, word: &[u8], name: &[u16]) -> Result<(), AllocError>
    ensures { OnOk result (out.new.items ≡ out.old.items ++ name_line word.now name.now) }
{
    out.extend_from_slice(word)?;
    out.push(b' ')?;
    push_name(out, name)?;
    out.push(b'\n')?;
    Ok(())
}

/// A word and a name, as an object.
fn push_name_object(out: &mut Vec<u8>, word: &[u8], name: &[u16]) -> Result<(), AllocError>
    ensures { OnOk result (out.new.items ≡ out.old.items ++ object_text word.now ((codes "name", Text name.now) ∷ [])) }
{
    open_object(out, word)?;
    push_text_field(out, b"name", name)?;
    close_object(out)
}

/// A word and a name.
pub(crate) fn push_line(
    out: &mut Vec<u8>,
    form: ReportForm,
    word: &[u8],
    name: &[u16],
) -> Result<(), AllocError>
    ensures { OnOk result (out.new.items ≡ out.old.items ++ name_line_in form word.now name.now) }
{
    match form {
        ReportForm::Text => push_name_text(out, word, name),
        ReportForm::Json => push_name_object(out, word, name),
    }
}

/// A line for each name.
pub(crate) fn push_lines(
    out: &mut Vec<u8>,
    form: ReportForm,
    word: &[u8],
    names: &[Units],
) -> Result<(), AllocError>
    ensures { OnOk result (out.new.items ≡ out.old.items ++ name_lines_in form word.now names.now) }
{
    for name in names {
        push_line(out, form, word, name.as_slice())?;
    }
    Ok(())
}

/// A word with a kept name after it.
fn push_kept(out: &mut Vec<u8>, word: &[u8], name: &Units) -> Result<(), AllocError>
    ensures { OnOk result (out.new.items ≡ out.old.items ++ (word.now ++ name_text name.now)) }
{
    out.extend_from_slice(word)?;
    push_name(out, name.as_slice())
}

/// Why a command was refused. Lack of memory is no refusal.
fn push_stop(out: &mut Vec<u8>, stop: &ControlStop) -> Result<(), AllocError>
    ensures text { OnOk result (out.new.items ≡ out.old.items ++ stop_text stop.now) }
    ensures named { OnOk result (stop.now ≡ stops.Memory → ⊥) }
{
    match stop {
        ControlStop::NoService => out.extend_from_slice(b"no-service"),
        ControlStop::Disabled => out.extend_from_slice(b"disabled"),
        ControlStop::Running => out.extend_from_slice(b"running"),
        ControlStop::NotStarted => out.extend_from_slice(b"not-started"),
        ControlStop::Missing(name) => push_kept(out, b"missing ", name),
        ControlStop::NeedDisabled(name) => push_kept(out, b"need-disabled ", name),
        ControlStop::InUse(name) => push_kept(out, b"in-use ", name),
        ControlStop::Unmet => out.extend_from_slice(b"unmet"),
        ControlStop::Memory => Err(AllocError),
    }
}

/// The line of a refusal, as text.
fn push_refused_text(
    out: &mut Vec<u8>,
    command: &[u8],
    name: &[u16],
    stop: &ControlStop,
) -> Result<(), AllocError>
    ensures text { OnOk result (out.new.items ≡ out.old.items ++ refused_line command.now name.now stop.now) }
    ensures named { OnOk result (stop.now ≡ stops.Memory → ⊥) }
{
    out.extend_from_slice(b"refused ")?;
    out.extend_from_slice(command)?;
    out.push(b' ')?;
    push_name(out, name)?;
    out.push(b' ')?;
    push_stop(out, stop)?;
    out.push(b'\n')?;
    Ok(())
}

// ---- a refusal as an object

fn push_word(out: &mut Vec<u8>, word: &[u8]) -> Result<(), AllocError>
    ensures { OnOk result (out.new.items ≡ out.old.items ++ fields_text ((codes "word", Text word.now) ∷ [])) }
{
    push_word_field(out, b"word", word)
}

fn push_other(out: &mut Vec<u8>, word: &[u8], name: &Units) -> Result<(), AllocError>
    ensures { OnOk result (out.new.items ≡ out.old.items ++ fields_text ((codes "word", Text word.now) ∷ (codes "other", Text name.now) ∷ [])) }
{
    push_word_field(out, b"word", word)?;
    push_text_field(out, b"other", name.as_slice())
}

/// Why a command was refused. Lack of memory is no refusal.
fn push_stop_fields(out: &mut Vec<u8>, stop: &ControlStop) -> Result<(), AllocError>
    ensures text { OnOk result (out.new.items ≡ out.old.items ++ fields_text (stop_fields stop.now)) }
    ensures named { OnOk result (stop.now ≡ stops.Memory → ⊥) }
{
    match stop {
        ControlStop::NoService => push_word(out, b"no-service"),
        ControlStop::Disabled => push_word(out, b"disabled"),
        ControlStop::Running => push_word(out, b"running"),
        ControlStop::NotStarted => push_word(out, b"not-started"),
        ControlStop::Missing(name) => push_other(out, b"missing", name),
        ControlStop::NeedDisabled(name) => push_other(out, b"need-disabled", name),
        ControlStop::InUse(name) => push_other(out, b"in-use", name),
        ControlStop::Unmet => push_word(out, b"unmet"),
        ControlStop::Memory => Err(AllocError),
    }
}

fn push_asked_fields(out: &mut Vec<u8>, command: &[u8], name: &[u16]) -> Result<(), AllocError>
    ensures { OnOk result (out.new.items ≡ out.old.items ++ fields_text ((codes "command", Text command.now) ∷ (codes "name", Text name.now) ∷ [])) }
{
    push_word_field(out, b"command", command)?;
    push_text_field(out, b"name", name)
}

/// The line of a refusal, as an object.
#[tactic(auto, unfolding(crate::specs::Report::refused_json))]
fn push_refused_object(
    out: &mut Vec<u8>,
    command: &[u8],
    name: &[u16],
    stop: &ControlStop,
) -> Result<(), AllocError>
    ensures text { OnOk result (out.new.items ≡ out.old.items ++ refused_json command.now name.now stop.now) }
    ensures named { OnOk result (stop.now ≡ stops.Memory → ⊥) }
{
    open_object(out, b"refused")?;
    push_asked_fields(out, command, name)?;
    push_stop_fields(out, stop)?;
    close_object(out)
}

/// The line of a refusal.
pub(crate) fn push_refused(
    out: &mut Vec<u8>,
    form: ReportForm,
    command: &[u8],
    name: &[u16],
    stop: &ControlStop,
) -> Result<(), AllocError>
    ensures text { OnOk result (out.new.items ≡ out.old.items ++ refused_line_in form command.now name.now stop.now) }
    ensures named { OnOk result (stop.now ≡ stops.Memory → ⊥) }
{
    match form {
        ReportForm::Text => push_refused_text(out, command, name, stop),
        ReportForm::Json => push_refused_object(out, command, name, stop),
    }
}

// ---- the last lines

/// The last line.
pub(crate) fn push_end(out: &mut Vec<u8>, form: ReportForm) -> Result<(), AllocError>
    ensures { OnOk result (out.new.items ≡ out.old.items ++ end_line_in form) }
{
    match form {
        ReportForm::Text => out.extend_from_slice(b"end\n"),
        ReportForm::Json => push_end_object(out),
    }
}

/// The lines where Default names no usable set.
pub(crate) fn push_no_set(out: &mut Vec<u8>, form: ReportForm) -> Result<(), AllocError>
    ensures { OnOk result (out.new.items ≡ out.old.items ++ no_set_lines_in form) }
{
    match form {
        ReportForm::Text => out.extend_from_slice(b"verdict no-control-set\nend\n"),
        ReportForm::Json => {
            push_verdict_object(out, Verdict::NoControlSet)?;
            push_end_object(out)
        }
    }
}
