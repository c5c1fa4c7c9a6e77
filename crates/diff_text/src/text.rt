//! The lines as texts.

ghost use Rattle.std.specs.Prelude.{◌≡◌, ◌<◌, ◌++◌, length, take, OnOk};
ghost use Rattle.diff_text.specs.Lines.{texts_text, numbers_text, shown_text, first_bytes, cut_text, data_text, word_part, number_part, name_part, quoted_part, path_part, shown_part, data_part, both_parts, counted_part, settings_parts, phases_parts, line_parts, line_text};
ghost use Rattle.diff_text.specs.Words.{side_word};

use crate::words::{field_word, key_field_word, line_word, phase_word, side_word};
use answer_lines::diff_lines::{DiffLine, Shown, Side};
use boot_phases::boot_phases::Phase;
use key_text::{DataForm, data_form, push_form, push_kind};
use nt_bytes::{Names, Units};
use report_text::boot_report::push_name;
use report_text::line_text::{
    push_hex, push_number, push_numbers, push_path, push_quoted, push_quoted_texts,
};
use std::alloc::{AllocError, Global};

// ---- what a set has

fn push_texts(out: &mut Vec<u8>, texts: &[Units]) -> Result<(), AllocError>
    ensures { OnOk result (out.new.items ≡ out.old.items ++ texts_text texts.now) }
{
    if texts.is_empty() {
        return out.extend_from_slice(b"-");
    }
    push_quoted_texts(out, texts)
}

fn push_tags(out: &mut Vec<u8>, numbers: &[u32]) -> Result<(), AllocError>
    ensures { OnOk result (out.new.items ≡ out.old.items ++ numbers_text numbers.now) }
{
    if numbers.is_empty() {
        return out.extend_from_slice(b"-");
    }
    push_numbers(out, numbers)
}

fn push_value(out: &mut Vec<u8>, shown: &Shown) -> Result<(), AllocError>
    ensures { OnOk result (out.new.items ≡ out.old.items ++ shown_text shown.now) }
{
    match shown {
        Shown::Nothing => out.extend_from_slice(b"-"),
        Shown::Number(number) => push_number(out, u64::from(*number)),
        Shown::Text(text) => push_quoted(out, text.as_slice()),
        Shown::Texts(texts) => push_texts(out, texts.as_slice()),
        Shown::Numbers(numbers) => push_tags(out, numbers.as_slice()),
    }
}

// ---- data

/// The first 32 bytes.
fn first_of(bytes: &[u8]) -> &[u8]
    requires { 32 < length bytes.now }
    ensures { result.now ≡ take 32 bytes.now }
{
    &bytes[..32]
}

fn push_first_bytes(alloc: Global, out: &mut Vec<u8>, bytes: &[u8]) -> Result<(), AllocError>
    requires { 32 < length bytes.now }
    ensures { OnOk result (out.new.items ≡ out.old.items ++ first_bytes bytes.now) }
{
    let first = first_of(bytes);
    out.extend_from_slice(b"hex ")?;
    push_number(out, bytes.len() as u64)?;
    out.extend_from_slice(b" ")?;
    push_hex(alloc, out, first)?;
    out.extend_from_slice(b"..")
}

fn push_cut(alloc: Global, out: &mut Vec<u8>, form: &DataForm) -> Result<(), AllocError>
    ensures { OnOk result (out.new.items ≡ out.old.items ++ cut_text form.now) }
{
    match form {
        DataForm::Raw(bytes) if 32 < bytes.as_slice().len() => {
            push_first_bytes(alloc, out, bytes.as_slice())
        }
        _ => push_form(alloc, out, form),
    }
}

fn push_data(alloc: Global, out: &mut Vec<u8>, kind: u32, bytes: &[u8]) -> Result<(), AllocError>
    ensures { OnOk result (out.new.items ≡ out.old.items ++ data_text kind bytes.now) }
{
    let form = data_form(alloc, kind, bytes)?;
    push_cut(alloc, out, &form)
}

// ---- the parts of a line, each after a space

fn push_word(out: &mut Vec<u8>, word: &[u8]) -> Result<(), AllocError>
    ensures { OnOk result (out.new.items ≡ out.old.items ++ word_part word.now) }
{
    out.extend_from_slice(b" ")?;
    out.extend_from_slice(word)
}

fn push_side(out: &mut Vec<u8>, side: Side) -> Result<(), AllocError>
    ensures { OnOk result (out.new.items ≡ out.old.items ++ word_part (side_word side)) }
{
    push_word(out, side_word(side))
}

fn push_count(out: &mut Vec<u8>, number: u64) -> Result<(), AllocError>
    ensures { OnOk result (out.new.items ≡ out.old.items ++ number_part number) }
{
    out.extend_from_slice(b" ")?;
    push_number(out, number)
}

fn push_u32(out: &mut Vec<u8>, number: u32) -> Result<(), AllocError>
    ensures { OnOk result (out.new.items ≡ out.old.items ++ number_part number) }
{
    push_count(out, u64::from(number))
}

fn push_counted(out: &mut Vec<u8>, word: &[u8], number: u32) -> Result<(), AllocError>
    ensures { OnOk result (out.new.items ≡ out.old.items ++ counted_part word.now number) }
{
    push_word(out, word)?;
    push_u32(out, number)
}

/// Appends Start, Type and ErrorControl.
fn push_settings(out: &mut Vec<u8>, start: u32, kind: u32, control: u32) -> Result<(), AllocError>
    ensures { OnOk result (out.new.items ≡ out.old.items ++ settings_parts start kind control) }
{
    push_counted(out, b"start", start)?;
    push_counted(out, b"type", kind)?;
    push_counted(out, b"control", control)
}

fn push_phases(out: &mut Vec<u8>, first: Phase, second: Phase) -> Result<(), AllocError>
    ensures { OnOk result (out.new.items ≡ out.old.items ++ phases_parts first second) }
{
    push_word(out, phase_word(first))?;
    push_word(out, phase_word(second))
}

fn push_named(out: &mut Vec<u8>, name: &Units) -> Result<(), AllocError>
    ensures { OnOk result (out.new.items ≡ out.old.items ++ name_part name.now) }
{
    out.extend_from_slice(b" ")?;
    push_name(out, name.as_slice())
}

fn push_text(out: &mut Vec<u8>, text: &Units) -> Result<(), AllocError>
    ensures { OnOk result (out.new.items ≡ out.old.items ++ quoted_part text.now) }
{
    out.extend_from_slice(b" ")?;
    push_quoted(out, text.as_slice())
}

fn push_at(alloc: Global, out: &mut Vec<u8>, path: &Names) -> Result<(), AllocError>
    ensures { OnOk result (out.new.items ≡ out.old.items ++ path_part path.now) }
{
    out.extend_from_slice(b" ")?;
    push_path(alloc, out, path.as_slice())
}

fn push_shown(out: &mut Vec<u8>, shown: &Shown) -> Result<(), AllocError>
    ensures { OnOk result (out.new.items ≡ out.old.items ++ shown_part shown.now) }
{
    out.extend_from_slice(b" ")?;
    push_value(out, shown)
}

fn push_both(out: &mut Vec<u8>, first: &Shown, second: &Shown) -> Result<(), AllocError>
    ensures { OnOk result (out.new.items ≡ out.old.items ++ both_parts first.now second.now) }
{
    push_shown(out, first)?;
    push_shown(out, second)
}

fn push_kind_and_data(
    alloc: Global,
    out: &mut Vec<u8>,
    kind: u32,
    bytes: &[u8],
) -> Result<(), AllocError>
    ensures { OnOk result (out.new.items ≡ out.old.items ++ data_part kind bytes.now) }
{
    out.extend_from_slice(b" ")?;
    push_kind(alloc, out, kind)?;
    out.extend_from_slice(b" ")?;
    push_data(alloc, out, kind, bytes)
}

// ---- a line

fn push_parts(alloc: Global, out: &mut Vec<u8>, line: &DiffLine) -> Result<(), AllocError>
    ensures { OnOk result (out.new.items ≡ out.old.items ++ line_parts line.now) }
{
    match line {
        DiffLine::NoSet { side, number } => {
            push_side(out, *side)?;
            push_u32(out, *number)
        }
        DiffLine::Sets { first, second } => {
            push_u32(out, *first)?;
            push_u32(out, *second)
        }
        DiffLine::Only {
            side,
            start,
            kind,
            control,
            image,
            name,
        } => {
            push_side(out, *side)?;
            push_settings(out, *start, *kind, *control)?;
            push_word(out, b"image")?;
            push_shown(out, image)?;
            push_named(out, name)
        }
        DiffLine::Differs {
            field,
            first,
            second,
            name,
        } => {
            push_word(out, field_word(*field))?;
            push_both(out, first, second)?;
            push_named(out, name)
        }
        DiffLine::Parts {
            sequence: _,
            place,
            first,
            second,
        } => {
            push_count(out, *place)?;
            push_both(out, first, second)
        }
        DiffLine::Lone {
            part: _,
            side,
            name,
        } => {
            push_side(out, *side)?;
            push_named(out, name)
        }
        DiffLine::Tags {
            first,
            second,
            group,
        } => {
            push_both(out, first, second)?;
            push_named(out, group)
        }
        DiffLine::StartPhase {
            first,
            second,
            name,
        } => {
            push_phases(out, *first, *second)?;
            push_named(out, name)
        }
        DiffLine::StartsSame => push_word(out, b"same"),
        DiffLine::KeyDiffers { field, path } => {
            push_word(out, key_field_word(*field))?;
            push_at(alloc, out, path)
        }
        DiffLine::ValueDiffers { name, path } => {
            push_text(out, name)?;
            push_at(alloc, out, path)
        }
        DiffLine::ValueOnly { side, name, path } => {
            push_side(out, *side)?;
            push_text(out, name)?;
            push_at(alloc, out, path)
        }
        DiffLine::Data {
            side: _,
            kind,
            bytes,
        } => push_kind_and_data(alloc, out, *kind, bytes.as_slice()),
        DiffLine::KeyOnly { side, keys, path } => {
            push_side(out, *side)?;
            push_count(out, *keys)?;
            push_at(alloc, out, path)
        }
        DiffLine::Stamps { count } | DiffLine::Flags { count } | DiffLine::Differ { count } => {
            push_count(out, *count)
        }
        DiffLine::Same | DiffLine::End => Ok(()),
    }
}

/// Appends a line as a text.
pub(crate) fn push_line_text(
    alloc: Global,
    out: &mut Vec<u8>,
    line: &DiffLine,
) -> Result<(), AllocError>
    ensures { OnOk result (out.new.items ≡ out.old.items ++ line_text line.now) }
{
    out.extend_from_slice(line_word(line))?;
    push_parts(alloc, out, line)?;
    out.extend_from_slice(b"\n")
}
