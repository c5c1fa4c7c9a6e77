//! Lines in one of the two forms.

ghost use Rattle.std.specs.Prelude.{◌≡◌, ◌++◌, OnOk, IfOk};
ghost use Rattle.std.specs.List.{flat_map};
ghost use Rattle.check_text.specs.check_text.Lines.{printed, printed_lines};

use crate::check_text::json::push_line_json;
use crate::check_text::text::push_line_text;
use answer_lines::check_lines::CheckLine;
use nt_bytes::Bytes;
use report_text::line_text::ReportForm;
use std::alloc::{AllocError, Global};

fn push_line(out: &mut Vec<u8>, form: ReportForm, line: &CheckLine) -> Result<(), AllocError>
    ensures { OnOk result (out.new.items ≡ out.old.items ++ printed form line.now) }
{
    match form {
        ReportForm::Text => push_line_text(out, line),
        ReportForm::Json => push_line_json(out, line),
    }
}

fn push_lines(out: &mut Vec<u8>, form: ReportForm, lines: &[CheckLine]) -> Result<(), AllocError>
    ensures { OnOk result (out.new.items ≡ out.old.items ++ flat_map (printed form) lines.now) }
{
    for line in lines {
        push_line(out, form, line)?;
    }
    Ok(())
}

/// Lines in a form.
#[tactic(auto, unfolding(crate::specs::check_text::Lines::printed_lines))]
pub fn lines_text(alloc: Global, form: ReportForm, lines: &[CheckLine]) -> Result<Bytes, AllocError>
    ensures exact { IfOk result (λ text. text ≡ printed_lines form lines.now) }
{
    let mut text = Vec::new(alloc);
    push_lines(&mut text, form, lines)?;
    Ok(Bytes::from_vec(text))
}
