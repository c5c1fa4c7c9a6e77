//! A line in one of the two forms.

ghost use Rattle.std.specs.Prelude.{◌≡◌, ◌++◌, OnOk};
ghost use Rattle.line_parts.specs.Parts.{line, printed};
ghost use Rattle.line_parts.specs.Views.{all_seen};

use crate::json::push_object;
use crate::part::Part;
use crate::text::push_text;
use report_text::line_text::ReportForm;
use std::alloc::{AllocError, Global};

/// Appends a line whose text begins with other words than its object has.
#[tactic(auto, unfolding(crate::specs::Parts::printed))]
pub fn push_headed_line(
    alloc: Global,
    out: &mut Vec<u8>,
    form: ReportForm,
    head: &[u8],
    word: &[u8],
    parts: &[Part<'_>],
) -> Result<(), AllocError>
    ensures { OnOk result (out.new.items ≡ out.old.items ++ printed form (record { head = head.now; word = word.now; parts = all_seen parts.now })) }
{
    match form {
        ReportForm::Text => push_text(alloc, out, head, parts),
        ReportForm::Json => push_object(alloc, out, word, parts),
    }
}

/// Appends a line.
pub fn push_line(
    alloc: Global,
    out: &mut Vec<u8>,
    form: ReportForm,
    word: &[u8],
    parts: &[Part<'_>],
) -> Result<(), AllocError>
    ensures { OnOk result (out.new.items ≡ out.old.items ++ printed form (line word.now (all_seen parts.now))) }
{
    push_headed_line(alloc, out, form, word, word, parts)
}
