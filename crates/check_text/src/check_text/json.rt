//! The lines as objects of JSON.

ghost use Rattle.std.specs.Prelude.{◌≡◌, [], ◌∷◌, ◌++◌, codes, OnOk};
ghost use Rattle.report_text.specs.line_text.Objects.{Number, Text, fields_text};
ghost use Rattle.check_text.specs.check_text.Lines.{fault_fields, line_fields, line_json};

use crate::check_text::words::{field_word, line_word, select_word};
use answer_lines::check_lines::{CheckLine, Fault};
use nt_bytes::Units;
use report_text::line_text::{
    close_object, open_object, push_number_field, push_text_field, push_word_field,
};
use std::alloc::AllocError;

fn push_word(out: &mut Vec<u8>, name: &[u8], word: &[u8]) -> Result<(), AllocError>
    ensures { OnOk result (out.new.items ≡ out.old.items ++ fields_text ((name.now, Text word.now) ∷ [])) }
{
    push_word_field(out, name, word)
}

fn push_count(out: &mut Vec<u8>, name: &[u8], number: u64) -> Result<(), AllocError>
    ensures { OnOk result (out.new.items ≡ out.old.items ++ fields_text ((name.now, Number number) ∷ [])) }
{
    push_number_field(out, name, number)
}

fn push_u32(out: &mut Vec<u8>, name: &[u8], number: u32) -> Result<(), AllocError>
    ensures { OnOk result (out.new.items ≡ out.old.items ++ fields_text ((name.now, Number number) ∷ [])) }
{
    push_count(out, name, u64::from(number))
}

fn push_text(out: &mut Vec<u8>, name: &[u8], text: &Units) -> Result<(), AllocError>
    ensures { OnOk result (out.new.items ≡ out.old.items ++ fields_text ((name.now, Text text.now) ∷ [])) }
{
    push_text_field(out, name, text.as_slice())
}

fn push_need(out: &mut Vec<u8>, start: u32, need: &Units) -> Result<(), AllocError>
    ensures { OnOk result (out.new.items ≡ out.old.items ++ fields_text ((codes "start", Number start) ∷ (codes "need", Text need.now) ∷ [])) }
{
    push_u32(out, b"start", start)?;
    push_text(out, b"need", need)
}

fn push_tag(out: &mut Vec<u8>, tag: u32, group: &Units) -> Result<(), AllocError>
    ensures { OnOk result (out.new.items ≡ out.old.items ++ fields_text ((codes "tag", Number tag) ∷ (codes "group", Text group.now) ∷ [])) }
{
    push_u32(out, b"tag", tag)?;
    push_text(out, b"group", group)
}

fn push_fault(out: &mut Vec<u8>, fault: &Fault) -> Result<(), AllocError>
    ensures { OnOk result (out.new.items ≡ out.old.items ++ fields_text (fault_fields fault.now)) }
{
    match fault {
        Fault::NoStart | Fault::NoType | Fault::NoControl | Fault::NoImage => Ok(()),
        Fault::Malformed(field) => push_word(out, b"field", field_word(*field)),
        Fault::Beyond(start) => push_u32(out, b"start", *start),
        Fault::Kind(kind) => push_u32(out, b"type", *kind),
        Fault::TooEarly(start) => push_u32(out, b"start", *start),
        Fault::ControlBeyond(control) => push_u32(out, b"control", *control),
        Fault::NoService { need } => push_text(out, b"need", need),
        Fault::Never { start, need } => push_need(out, *start, need),
        Fault::Later { start, need } => push_need(out, *start, need),
        Fault::NoMember { group } => push_text(out, b"group", group),
        Fault::TagUnlisted { tag, group } => push_tag(out, *tag, group),
    }
}

fn push_about(out: &mut Vec<u8>, fault: &Fault, name: &Units) -> Result<(), AllocError>
    ensures { OnOk result (out.new.items ≡ out.old.items ++ fields_text (fault_fields fault.now ++ (codes "name", Text name.now) ∷ [])) }
{
    push_fault(out, fault)?;
    push_text(out, b"name", name)
}

fn push_select(out: &mut Vec<u8>, word: &[u8], number: u32) -> Result<(), AllocError>
    ensures { OnOk result (out.new.items ≡ out.old.items ++ fields_text ((codes "value", Text word.now) ∷ (codes "number", Number number) ∷ [])) }
{
    push_word(out, b"value", word)?;
    push_u32(out, b"number", number)
}

fn push_group(out: &mut Vec<u8>, count: u64, group: &Units) -> Result<(), AllocError>
    ensures { OnOk result (out.new.items ≡ out.old.items ++ fields_text ((codes "count", Number count) ∷ (codes "group", Text group.now) ∷ [])) }
{
    push_count(out, b"count", count)?;
    push_text(out, b"group", group)
}

fn push_cycle(out: &mut Vec<u8>, number: u64, name: &Units) -> Result<(), AllocError>
    ensures { OnOk result (out.new.items ≡ out.old.items ++ fields_text ((codes "number", Number number) ∷ (codes "name", Text name.now) ∷ [])) }
{
    push_count(out, b"number", number)?;
    push_text(out, b"name", name)
}

fn push_fields(out: &mut Vec<u8>, line: &CheckLine) -> Result<(), AllocError>
    ensures { OnOk result (out.new.items ≡ out.old.items ++ fields_text (line_fields line.now)) }
{
    match line {
        CheckLine::Select { word, number } => push_select(out, select_word(*word), *number),
        CheckLine::Set { number } => push_u32(out, b"number", *number),
        CheckLine::NoSet { number } => push_u32(out, b"number", *number),
        CheckLine::About { fault, name } => push_about(out, fault, name),
        CheckLine::GroupUnlisted { count, group } => push_group(out, *count, group),
        CheckLine::Cycle { number, name } => push_cycle(out, *number, name),
        CheckLine::Found { count } => push_count(out, b"count", *count),
        CheckLine::CurrentSetKey | CheckLine::NoServices | CheckLine::NoList | CheckLine::End => {
            Ok(())
        }
    }
}

/// Appends a line as an object.
pub(crate) fn push_line_json(out: &mut Vec<u8>, line: &CheckLine) -> Result<(), AllocError>
    ensures { OnOk result (out.new.items ≡ out.old.items ++ line_json line.now) }
{
    open_object(out, line_word(line))?;
    push_fields(out, line)?;
    close_object(out)
}
