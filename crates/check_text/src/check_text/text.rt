//! The lines as texts.

ghost use Rattle.std.specs.Prelude.{◌≡◌, ◌++◌, OnOk};
ghost use Rattle.check_text.specs.check_text.Lines.{word_part, number_part, name_part, quoted_part, fault_parts, line_parts, line_text};

use crate::check_text::words::{field_word, line_word, select_word};
use answer_lines::check_lines::{CheckLine, Fault};
use nt_bytes::Units;
use report_text::boot_report::push_name;
use report_text::line_text::{push_number, push_quoted};
use std::alloc::AllocError;

fn push_word(out: &mut Vec<u8>, word: &[u8]) -> Result<(), AllocError>
    ensures { OnOk result (out.new.items ≡ out.old.items ++ word_part word.now) }
{
    out.extend_from_slice(b" ")?;
    out.extend_from_slice(word)
}

fn push_count(out: &mut Vec<u8>, number: u64) -> Result<(), AllocError>
    ensures { OnOk result (out.new.items ≡ out.old.items ++ number_part number) }
{
    out.extend_from_slice(b" ")?;
    push_number(out, number)
}

fn push_u32(out: &mut Vec<u8>, number: u32) -> Result<(), AllocError>
    ensures { OnOk result (out.new.items ≡ out.old.items ++ number_part number) }
{
    push_count(out, u64::from(number))
}

fn push_named(out: &mut Vec<u8>, name: &Units) -> Result<(), AllocError>
    ensures { OnOk result (out.new.items ≡ out.old.items ++ name_part name.now) }
{
    out.extend_from_slice(b" ")?;
    push_name(out, name.as_slice())
}

fn push_text(out: &mut Vec<u8>, text: &Units) -> Result<(), AllocError>
    ensures { OnOk result (out.new.items ≡ out.old.items ++ quoted_part text.now) }
{
    out.extend_from_slice(b" ")?;
    push_quoted(out, text.as_slice())
}

fn push_need(out: &mut Vec<u8>, number: u32, text: &Units) -> Result<(), AllocError>
    ensures { OnOk result (out.new.items ≡ out.old.items ++ number_part number ++ quoted_part text.now) }
{
    push_u32(out, number)?;
    push_text(out, text)
}

fn push_fault(out: &mut Vec<u8>, fault: &Fault) -> Result<(), AllocError>
    ensures { OnOk result (out.new.items ≡ out.old.items ++ fault_parts fault.now) }
{
    match fault {
        Fault::NoStart | Fault::NoType | Fault::NoControl | Fault::NoImage => Ok(()),
        Fault::Malformed(field) => push_word(out, field_word(*field)),
        Fault::Beyond(start) => push_u32(out, *start),
        Fault::Kind(kind) => push_u32(out, *kind),
        Fault::TooEarly(start) => push_u32(out, *start),
        Fault::ControlBeyond(control) => push_u32(out, *control),
        Fault::NoService { need } => push_text(out, need),
        Fault::Never { start, need } => push_need(out, *start, need),
        Fault::Later { start, need } => push_need(out, *start, need),
        Fault::NoMember { group } => push_text(out, group),
        Fault::TagUnlisted { tag, group } => push_need(out, *tag, group),
    }
}

fn push_about(out: &mut Vec<u8>, fault: &Fault, name: &Units) -> Result<(), AllocError>
    ensures { OnOk result (out.new.items ≡ out.old.items ++ fault_parts fault.now ++ name_part name.now) }
{
    push_fault(out, fault)?;
    push_named(out, name)
}

fn push_select(out: &mut Vec<u8>, word: &[u8], number: u32) -> Result<(), AllocError>
    ensures { OnOk result (out.new.items ≡ out.old.items ++ word_part word.now ++ number_part number) }
{
    push_word(out, word)?;
    push_u32(out, number)
}

fn push_counted(out: &mut Vec<u8>, count: u64, name: &Units) -> Result<(), AllocError>
    ensures { OnOk result (out.new.items ≡ out.old.items ++ number_part count ++ name_part name.now) }
{
    push_count(out, count)?;
    push_named(out, name)
}

fn push_parts(out: &mut Vec<u8>, line: &CheckLine) -> Result<(), AllocError>
    ensures { OnOk result (out.new.items ≡ out.old.items ++ line_parts line.now) }
{
    match line {
        CheckLine::Select { word, number } => push_select(out, select_word(*word), *number),
        CheckLine::Set { number } => push_u32(out, *number),
        CheckLine::NoSet { number } => push_u32(out, *number),
        CheckLine::About { fault, name } => push_about(out, fault, name),
        CheckLine::GroupUnlisted { count, group } => push_counted(out, *count, group),
        CheckLine::Cycle { number, name } => push_counted(out, *number, name),
        CheckLine::Found { count } => push_count(out, *count),
        CheckLine::CurrentSetKey | CheckLine::NoServices | CheckLine::NoList | CheckLine::End => {
            Ok(())
        }
    }
}

/// Appends a line as a text.
pub(crate) fn push_line_text(out: &mut Vec<u8>, line: &CheckLine) -> Result<(), AllocError>
    ensures { OnOk result (out.new.items ≡ out.old.items ++ line_text line.now) }
{
    out.extend_from_slice(line_word(line))?;
    push_parts(out, line)?;
    out.extend_from_slice(b"\n")
}
