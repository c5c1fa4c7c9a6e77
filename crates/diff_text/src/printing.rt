//! Lines in one of the two forms.

ghost use Rattle.std.specs.Prelude.{◌≡◌, ◌++◌, OnOk, IfOk};
ghost use Rattle.std.specs.List.{flat_map};
ghost use Rattle.diff_text.specs.Objects.{printed, printed_lines};

use crate::json::push_line_json;
use crate::text::push_line_text;
use answer_lines::diff_lines::DiffLine;
use nt_bytes::Bytes;
use report_text::line_text::ReportForm;
use std::alloc::{AllocError, Global};

fn push_line(
    alloc: Global,
    out: &mut Vec<u8>,
    form: ReportForm,
    line: &DiffLine,
) -> Result<(), AllocError>
    ensures { OnOk result (out.new.items ≡ out.old.items ++ printed form line.now) }
{
    match form {
        ReportForm::Text => push_line_text(alloc, out, line),
        ReportForm::Json => push_line_json(alloc, out, line),
    }
}

fn push_lines(
    alloc: Global,
    out: &mut Vec<u8>,
    form: ReportForm,
    lines: &[DiffLine],
) -> Result<(), AllocError>
    ensures { OnOk result (out.new.items ≡ out.old.items ++ flat_map (printed form) lines.now) }
{
    for line in lines {
        push_line(alloc, out, form, line)?;
    }
    Ok(())
}

/// Lines in a form.
#[tactic(auto, unfolding(crate::specs::Objects::printed_lines))]
pub fn lines_text(alloc: Global, form: ReportForm, lines: &[DiffLine]) -> Result<Bytes, AllocError>
    ensures exact { IfOk result (λ text. text ≡ printed_lines form lines.now) }
{
    let mut text = Vec::new(alloc);
    push_lines(alloc, &mut text, form, lines)?;
    Ok(Bytes::from_vec(text))
}
