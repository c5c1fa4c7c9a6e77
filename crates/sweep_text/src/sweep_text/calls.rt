//! The lines of single calls, and of their counts.

ghost use Rattle.std.specs.Prelude.{◌≡◌, ◌≤◌, ◌-◌, ◌*◌, [], ◌∷◌, ◌++◌, codes, OnOk};
ghost use Rattle.std.specs.Fmt.{decimal};
ghost use Rattle.report_text.specs.line_text.Objects.{Number, Text, field_text, fields_text, object_text};
ghost use Rattle.sweep_text.specs.sweep_text.Calls.{state_word, four_text, four_fields, head_line, keeps_line, stage_line, write_fields, write_line, sync_line, counts_fields, counts_line, end_line};

use report_text::line_text::{
    ReportForm, close_object, open_object, push_number, push_number_field, push_word_field,
};
use std::alloc::AllocError;

fn state_word(after: bool) -> &'static [u8]
    ensures { result.now ≡ state_word after }
{
    if after { b"after" } else { b"before" }
}

// ---- texts

fn push_word(out: &mut Vec<u8>, after: bool) -> Result<(), AllocError>
    ensures { OnOk result (out.new.items ≡ out.old.items ++ (codes " " ++ state_word after)) }
{
    out.push(b' ')?;
    out.extend_from_slice(state_word(after))
}

fn push_four(out: &mut Vec<u8>, none: bool, others: bool) -> Result<(), AllocError>
    ensures { OnOk result (out.new.items ≡ out.old.items ++ four_text none others) }
{
    push_word(out, none)?;
    push_word(out, others)?;
    push_word(out, others)?;
    push_word(out, others)?;
    out.push(b'\n')?;
    Ok(())
}

/// A word of a line and a number after it.
fn push_count(out: &mut Vec<u8>, word: &[u8], number: u32) -> Result<(), AllocError>
    ensures { OnOk result (out.new.items ≡ out.old.items ++ (word.now ++ decimal number)) }
{
    out.extend_from_slice(word)?;
    push_number(out, u64::from(number))
}

/// A line of one more word.
fn push_named(out: &mut Vec<u8>, line: &[u8], name: &[u8]) -> Result<(), AllocError>
    ensures { OnOk result (out.new.items ≡ out.old.items ++ (line.now ++ name.now ++ codes "\n")) }
{
    out.extend_from_slice(line)?;
    out.extend_from_slice(name)?;
    out.push(b'\n')?;
    Ok(())
}

/// The beginning of a write's line.
fn push_place(out: &mut Vec<u8>, n: u32, file: &[u8], sector: u32) -> Result<(), AllocError>
    ensures { OnOk result (out.new.items ≡ out.old.items ++ (codes "write " ++ decimal n ++ codes " " ++ file.now ++ codes " " ++ decimal sector)) }
{
    push_count(out, b"write ", n)?;
    out.push(b' ')?;
    out.extend_from_slice(file)?;
    push_count(out, b" ", sector)
}

fn push_write_text(
    out: &mut Vec<u8>,
    n: u32,
    file: &[u8],
    after: bool,
    sector: u32,
) -> Result<(), AllocError>
    ensures { OnOk result (out.new.items ≡ out.old.items ++ write_line ReportForm.Text n file.now after sector) }
{
    push_place(out, n, file, sector)?;
    push_four(out, after, after)
}

fn push_sync_text(out: &mut Vec<u8>, n: u32, none: bool, others: bool) -> Result<(), AllocError>
    ensures { OnOk result (out.new.items ≡ out.old.items ++ sync_line ReportForm.Text n none others) }
{
    push_count(out, b"sync ", n)?;
    push_four(out, none, others)
}

fn push_counts_text(out: &mut Vec<u8>, count: u32, after: u32) -> Result<(), AllocError>
    requires few { count ≤ 1000000000 }
    requires within { after ≤ 4 * count }
    ensures { OnOk result (out.new.items ≡ out.old.items ++ counts_line ReportForm.Text count after) }
{
    push_count(out, b"calls ", count)?;
    push_count(out, b" before ", 4 * count - after)?;
    push_count(out, b" after ", after)?;
    out.extend_from_slice(b" neither 0\n")
}

// ---- objects

fn push_bare(out: &mut Vec<u8>, line: &[u8]) -> Result<(), AllocError>
    ensures { OnOk result (out.new.items ≡ out.old.items ++ object_text line.now []) }
{
    open_object(out, line)?;
    close_object(out)
}

fn push_one(out: &mut Vec<u8>, line: &[u8], name: &[u8], word: &[u8]) -> Result<(), AllocError>
    ensures { OnOk result (out.new.items ≡ out.old.items ++ object_text line.now ((name.now, Text word.now) ∷ [])) }
{
    open_object(out, line)?;
    push_word_field(out, name, word)?;
    close_object(out)
}

fn push_state(out: &mut Vec<u8>, name: &[u8], after: bool) -> Result<(), AllocError>
    ensures { OnOk result (out.new.items ≡ out.old.items ++ field_text name.now (Text (state_word after))) }
{
    push_word_field(out, name, state_word(after))
}

fn push_four_fields(out: &mut Vec<u8>, none: bool, others: bool) -> Result<(), AllocError>
    ensures { OnOk result (out.new.items ≡ out.old.items ++ fields_text (four_fields none others)) }
{
    push_state(out, b"none", none)?;
    push_state(out, b"all", others)?;
    push_state(out, b"odd", others)?;
    push_state(out, b"torn", others)
}

fn push_place_fields(out: &mut Vec<u8>, n: u32, file: &[u8], sector: u32) -> Result<(), AllocError>
    ensures { OnOk result (out.new.items ≡ out.old.items ++ fields_text ((codes "number", Number n) ∷ (codes "file", Text file.now) ∷ (codes "sector", Number sector) ∷ [])) }
{
    push_number_field(out, b"number", u64::from(n))?;
    push_word_field(out, b"file", file)?;
    push_number_field(out, b"sector", u64::from(sector))
}

fn push_write_fields(
    out: &mut Vec<u8>,
    n: u32,
    file: &[u8],
    sector: u32,
    after: bool,
) -> Result<(), AllocError>
    ensures { OnOk result (out.new.items ≡ out.old.items ++ fields_text (write_fields n file.now sector after)) }
{
    push_place_fields(out, n, file, sector)?;
    push_four_fields(out, after, after)
}

fn push_write_object(
    out: &mut Vec<u8>,
    n: u32,
    file: &[u8],
    after: bool,
    sector: u32,
) -> Result<(), AllocError>
    ensures { OnOk result (out.new.items ≡ out.old.items ++ write_line ReportForm.Json n file.now after sector) }
{
    open_object(out, b"write")?;
    push_write_fields(out, n, file, sector, after)?;
    close_object(out)
}

fn push_sync_fields(out: &mut Vec<u8>, n: u32, none: bool, others: bool) -> Result<(), AllocError>
    ensures { OnOk result (out.new.items ≡ out.old.items ++ fields_text ((codes "number", Number n) ∷ four_fields none others)) }
{
    push_number_field(out, b"number", u64::from(n))?;
    push_four_fields(out, none, others)
}

fn push_sync_object(out: &mut Vec<u8>, n: u32, none: bool, others: bool) -> Result<(), AllocError>
    ensures { OnOk result (out.new.items ≡ out.old.items ++ sync_line ReportForm.Json n none others) }
{
    open_object(out, b"sync")?;
    push_sync_fields(out, n, none, others)?;
    close_object(out)
}

fn push_counts_fields(
    out: &mut Vec<u8>,
    count: u64,
    before: u64,
    after: u64,
) -> Result<(), AllocError>
    ensures { OnOk result (out.new.items ≡ out.old.items ++ fields_text ((codes "count", Number count) ∷ (codes "before", Number before)
        ∷ (codes "after", Number after) ∷ (codes "neither", Number 0) ∷ [])) }
{
    push_number_field(out, b"count", count)?;
    push_number_field(out, b"before", before)?;
    push_number_field(out, b"after", after)?;
    push_number_field(out, b"neither", 0)
}

fn push_wide_counts(
    out: &mut Vec<u8>,
    count: u64,
    before: u64,
    after: u64,
) -> Result<(), AllocError>
    ensures { OnOk result (out.new.items ≡ out.old.items ++ object_text (codes "calls") ((codes "count", Number count) ∷ (codes "before", Number before)
        ∷ (codes "after", Number after) ∷ (codes "neither", Number 0) ∷ [])) }
{
    open_object(out, b"calls")?;
    push_counts_fields(out, count, before, after)?;
    close_object(out)
}

fn push_counts_object(out: &mut Vec<u8>, count: u32, after: u32) -> Result<(), AllocError>
    requires few { count ≤ 1000000000 }
    requires within { after ≤ 4 * count }
    ensures { OnOk result (out.new.items ≡ out.old.items ++ counts_line ReportForm.Json count after) }
{
    push_wide_counts(
        out,
        u64::from(count),
        u64::from(4 * count - after),
        u64::from(after),
    )
}

// ---- lines in a form

/// Appends the first line.
pub(crate) fn push_head(out: &mut Vec<u8>, form: ReportForm, event: &[u8]) -> Result<(), AllocError>
    ensures { OnOk result (out.new.items ≡ out.old.items ++ head_line form event.now) }
{
    match form {
        ReportForm::Text => push_named(out, b"sweep ", event),
        ReportForm::Json => push_one(out, b"sweep", b"event", event),
    }
}

/// Appends the head of the four columns.
pub(crate) fn push_keeps(out: &mut Vec<u8>, form: ReportForm) -> Result<(), AllocError>
    ensures { OnOk result (out.new.items ≡ out.old.items ++ keeps_line form) }
{
    match form {
        ReportForm::Text => out.extend_from_slice(b"keeps none all odd torn\n"),
        ReportForm::Json => push_bare(out, b"keeps"),
    }
}

/// Appends the line before a stage.
pub(crate) fn push_stage(out: &mut Vec<u8>, form: ReportForm, name: &[u8]) -> Result<(), AllocError>
    ensures { OnOk result (out.new.items ≡ out.old.items ++ stage_line form name.now) }
{
    match form {
        ReportForm::Text => push_named(out, b"stage ", name),
        ReportForm::Json => push_one(out, b"stage", b"name", name),
    }
}

/// Appends the line of a write.
pub(crate) fn push_write(
    out: &mut Vec<u8>,
    form: ReportForm,
    n: u32,
    file: &[u8],
    after: bool,
    sector: u32,
) -> Result<(), AllocError>
    ensures { OnOk result (out.new.items ≡ out.old.items ++ write_line form n file.now after sector) }
{
    match form {
        ReportForm::Text => push_write_text(out, n, file, after, sector),
        ReportForm::Json => push_write_object(out, n, file, after, sector),
    }
}

/// Appends the line of a sync.
pub(crate) fn push_sync(
    out: &mut Vec<u8>,
    form: ReportForm,
    n: u32,
    none: bool,
    others: bool,
) -> Result<(), AllocError>
    ensures { OnOk result (out.new.items ≡ out.old.items ++ sync_line form n none others) }
{
    match form {
        ReportForm::Text => push_sync_text(out, n, none, others),
        ReportForm::Json => push_sync_object(out, n, none, others),
    }
}

/// Appends the numbers of calls and of words `after`.
pub(crate) fn push_counts(
    out: &mut Vec<u8>,
    form: ReportForm,
    count: u32,
    after: u32,
) -> Result<(), AllocError>
    requires few { count ≤ 1000000000 }
    requires within { after ≤ 4 * count }
    ensures { OnOk result (out.new.items ≡ out.old.items ++ counts_line form count after) }
{
    match form {
        ReportForm::Text => push_counts_text(out, count, after),
        ReportForm::Json => push_counts_object(out, count, after),
    }
}

/// Appends the last line.
pub(crate) fn push_end(out: &mut Vec<u8>, form: ReportForm) -> Result<(), AllocError>
    ensures { OnOk result (out.new.items ≡ out.old.items ++ end_line form) }
{
    match form {
        ReportForm::Text => out.extend_from_slice(b"end\n"),
        ReportForm::Json => push_bare(out, b"end"),
    }
}
