//! The lines of an import, as texts or as objects of JSON.

ghost use Rattle.std.specs.Prelude.{◌≡◌, ◌++◌, [], codes, IfOk, OnOk};
ghost use Rattle.report_text.specs.line_text.Objects.{fields_text};
ghost use Rattle.text_commands.specs.ImportLines.{edit_word, stop_word, number_line, option_line, refused_fields, refused_line, nothing_line, commit_fields, commit_line, done_line, said_text};

use crate::said::{Done, ImportStop, Said};
use reg_tree::EditStop;
use report_text::line_text::{
    ReportForm, close_object, open_object, push_number, push_number_field, push_word_field,
};
use std::alloc::{AllocError, Global};

fn edit_word(stop: EditStop) -> &'static [u8]
    ensures { result.now ≡ edit_word stop }
{
    match stop {
        EditStop::NoKey => b"no-key",
        EditStop::NoValue => b"no-value",
        EditStop::BadName => b"bad-name",
        EditStop::Exists => b"exists",
        EditStop::NameTooLong => b"name-too-long",
        EditStop::TooDeep => b"too-deep",
        EditStop::DataTooLong => b"data-too-long",
        EditStop::Full => b"full",
        EditStop::Memory => b"memory",
    }
}

/// The word of why an import is refused.
fn stop_word(stop: ImportStop) -> &'static [u8]
    ensures { result.now ≡ stop_word stop }
{
    match stop {
        ImportStop::NoControlSet => b"no-control-set",
        ImportStop::Protected => b"protected",
        ImportStop::Edit(stop) => edit_word(stop),
    }
}

fn push_number_text(out: &mut Vec<u8>, word: &[u8], number: u64) -> Result<(), AllocError>
    ensures { OnOk result (out.new.items ≡ out.old.items ++ number_line ReportForm.Text word.now [] number) }
{
    out.extend_from_slice(word)?;
    out.extend_from_slice(b" ")?;
    push_number(out, number)?;
    out.extend_from_slice(b"\n")
}

fn push_number_json(
    out: &mut Vec<u8>,
    word: &[u8],
    name: &[u8],
    number: u64,
) -> Result<(), AllocError>
    ensures { OnOk result (out.new.items ≡ out.old.items ++ number_line ReportForm.Json word.now name.now number) }
{
    open_object(out, word)?;
    push_number_field(out, name, number)?;
    close_object(out)
}

fn push_number_line(
    out: &mut Vec<u8>,
    form: ReportForm,
    word: &[u8],
    name: &[u8],
    number: u64,
) -> Result<(), AllocError>
    ensures { OnOk result (out.new.items ≡ out.old.items ++ number_line form word.now name.now number) }
{
    match form {
        ReportForm::Text => push_number_text(out, word, number),
        ReportForm::Json => push_number_json(out, word, name, number),
    }
}

/// The line of the set that `CurrentControlSet` stands for.
fn push_current(out: &mut Vec<u8>, form: ReportForm, number: Option<u32>) -> Result<(), AllocError>
    ensures { OnOk result (out.new.items ≡ out.old.items ++ option_line form (codes "current") (codes "number") number) }
{
    match number {
        Some(number) => push_number_line(out, form, b"current", b"number", u64::from(number)),
        None => Ok(()),
    }
}

/// The line of how many steps were passed over.
fn push_passed(out: &mut Vec<u8>, form: ReportForm, count: Option<usize>) -> Result<(), AllocError>
    ensures { OnOk result (out.new.items ≡ out.old.items ++ option_line form (codes "passed") (codes "count") count) }
{
    match count {
        Some(count) => push_number_line(out, form, b"passed", b"count", count as u64),
        None => Ok(()),
    }
}

fn push_refused_text(out: &mut Vec<u8>, word: &[u8]) -> Result<(), AllocError>
    ensures { OnOk result (out.new.items ≡ out.old.items ++ refused_line ReportForm.Text word.now) }
{
    out.extend_from_slice(b"import refused ")?;
    out.extend_from_slice(word)?;
    out.extend_from_slice(b"\n")
}

fn push_refused_fields(out: &mut Vec<u8>, word: &[u8]) -> Result<(), AllocError>
    ensures { OnOk result (out.new.items ≡ out.old.items ++ fields_text (refused_fields word.now)) }
{
    push_word_field(out, b"command", b"import")?;
    push_word_field(out, b"word", word)
}

fn push_refused_json(out: &mut Vec<u8>, word: &[u8]) -> Result<(), AllocError>
    ensures { OnOk result (out.new.items ≡ out.old.items ++ refused_line ReportForm.Json word.now) }
{
    open_object(out, b"refused")?;
    push_refused_fields(out, word)?;
    close_object(out)
}

fn push_refused(out: &mut Vec<u8>, form: ReportForm, word: &[u8]) -> Result<(), AllocError>
    ensures { OnOk result (out.new.items ≡ out.old.items ++ refused_line form word.now) }
{
    match form {
        ReportForm::Text => push_refused_text(out, word),
        ReportForm::Json => push_refused_json(out, word),
    }
}

fn push_nothing_json(out: &mut Vec<u8>) -> Result<(), AllocError>
    ensures { OnOk result (out.new.items ≡ out.old.items ++ nothing_line ReportForm.Json) }
{
    open_object(out, b"import")?;
    close_object(out)
}

fn push_nothing(out: &mut Vec<u8>, form: ReportForm) -> Result<(), AllocError>
    ensures { OnOk result (out.new.items ≡ out.old.items ++ nothing_line form) }
{
    match form {
        ReportForm::Text => out.extend_from_slice(b"import nothing\n"),
        ReportForm::Json => push_nothing_json(out),
    }
}

fn push_commit_text(out: &mut Vec<u8>, number: u32) -> Result<(), AllocError>
    ensures { OnOk result (out.new.items ≡ out.old.items ++ commit_line ReportForm.Text number) }
{
    out.extend_from_slice(b"commit import ")?;
    push_number(out, u64::from(number))?;
    out.extend_from_slice(b"\n")
}

fn push_commit_fields(out: &mut Vec<u8>, number: u32) -> Result<(), AllocError>
    ensures { OnOk result (out.new.items ≡ out.old.items ++ fields_text (commit_fields number)) }
{
    push_word_field(out, b"what", b"import")?;
    push_number_field(out, b"sequence", u64::from(number))
}

fn push_commit_json(out: &mut Vec<u8>, number: u32) -> Result<(), AllocError>
    ensures { OnOk result (out.new.items ≡ out.old.items ++ commit_line ReportForm.Json number) }
{
    open_object(out, b"commit")?;
    push_commit_fields(out, number)?;
    close_object(out)
}

fn push_commit(out: &mut Vec<u8>, form: ReportForm, number: u32) -> Result<(), AllocError>
    ensures { OnOk result (out.new.items ≡ out.old.items ++ commit_line form number) }
{
    match form {
        ReportForm::Text => push_commit_text(out, number),
        ReportForm::Json => push_commit_json(out, number),
    }
}

/// The line of what was done.
fn push_done(out: &mut Vec<u8>, form: ReportForm, done: Done) -> Result<(), AllocError>
    ensures { OnOk result (out.new.items ≡ out.old.items ++ done_line form done) }
{
    match done {
        Done::Refused(stop) => push_refused(out, form, stop_word(stop)),
        Done::Nothing => push_nothing(out, form),
        Done::Commit(number) => push_commit(out, form, number),
    }
}

/// All lines.
pub fn said_lines(alloc: Global, form: ReportForm, said: Said) -> Result<Vec<u8>, AllocError>
    ensures { IfOk result (λ l. l.items ≡ said_text form said) }
{
    let mut out = Vec::new(alloc);
    push_current(&mut out, form, said.current)?;
    push_passed(&mut out, form, said.passed)?;
    push_done(&mut out, form, said.done)?;
    Ok(out)
}
