//! Lines in one of the two forms.

ghost use Rattle.std.specs.Prelude.{◌≡◌, ◌++◌, OnOk};
ghost use Rattle.repair_commands.specs.replay_text.Lines.{printed, printed_lines};

use crate::replay_text::json::push_json;
use crate::replay_text::text::push_text;
use log_replay::ReplayLine;
use report_text::line_text::ReportForm;
use std::alloc::AllocError;

fn push_line(out: &mut Vec<u8>, form: ReportForm, line: ReplayLine) -> Result<(), AllocError>
    ensures { OnOk result (out.new.items ≡ out.old.items ++ printed form line) }
{
    match form {
        ReportForm::Text => push_text(out, line),
        ReportForm::Json => push_json(out, line),
    }
}

/// Appends lines in a form.
pub fn push_lines(
    out: &mut Vec<u8>,
    form: ReportForm,
    lines: &[ReplayLine],
) -> Result<(), AllocError>
    ensures { OnOk result (out.new.items ≡ out.old.items ++ printed_lines form lines.now) }
{
    for line in lines {
        push_line(out, form, *line)?;
    }
    Ok(())
}
