//! Lines in one of the two forms.

ghost use Rattle.std.specs.Prelude.{◌≡◌, ◌++◌, IfOk, OnOk};
ghost use Rattle.check_text.specs.whatif_text.Lines.{printed, printed_lines};

use crate::whatif_text::json::push_json;
use crate::whatif_text::text::push_text;
use failure_effects::{EffectLine, EffectLines};
use nt_bytes::Bytes;
use report_text::line_text::ReportForm;
use std::alloc::{AllocError, Global};

fn push_line(out: &mut Vec<u8>, form: ReportForm, line: EffectLine) -> Result<(), AllocError>
    ensures { OnOk result (out.new.items ≡ out.old.items ++ printed form line) }
{
    match form {
        ReportForm::Text => push_text(out, line),
        ReportForm::Json => push_json(out, line),
    }
}

/// The lines in a form.
pub fn print_lines(alloc: Global, form: ReportForm, lines: EffectLines) -> Result<Bytes, AllocError>
    ensures { IfOk result (λ text. text ≡ printed_lines form lines) }
{
    let mut out = Vec::new(alloc);
    for line in lines.into_vec() {
        push_line(&mut out, form, line)?;
    }
    Ok(Bytes::from_vec(out))
}
