//! Lines in one of the two forms.

ghost use Rattle.std.specs.Prelude.{◌≡◌, ◌++◌, OnOk, IfOk};
ghost use Rattle.std.specs.List.{flat_map};
ghost use Rattle.device_command.specs.Lines.{printed, printed_lines};

use crate::line::push_device_line;
use device_rule::DeviceLine;
use nt_bytes::Bytes;
use report_text::line_text::ReportForm;
use std::alloc::{AllocError, Global};

fn push_lines(
    alloc: Global,
    out: &mut Vec<u8>,
    form: ReportForm,
    lines: &[DeviceLine],
) -> Result<(), AllocError>
    ensures { OnOk result (out.new.items ≡ out.old.items ++ flat_map (printed form) lines.now) }
{
    for line in lines {
        push_device_line(alloc, out, form, line)?;
    }
    Ok(())
}

/// Lines in a form.
#[tactic(auto, unfolding(crate::specs::Lines::printed_lines))]
pub fn lines_text(
    alloc: Global,
    form: ReportForm,
    lines: &[DeviceLine],
) -> Result<Bytes, AllocError>
    ensures exact { IfOk result (λ text. text ≡ printed_lines form lines.now) }
{
    let mut text = Vec::new(alloc);
    push_lines(alloc, &mut text, form, lines)?;
    Ok(Bytes::from_vec(text))
}
