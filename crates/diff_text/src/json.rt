//! The lines as objects of JSON.

ghost use Rattle.std.specs.Prelude.{◌≡◌, [], ◌∷◌, ◌++◌, codes, OnOk};
ghost use Rattle.report_text.specs.line_text.Objects.{Number, Text, Texts, fields_text};
ghost use Rattle.key_text.specs.Data.{form_of, form_fields};
ghost use Rattle.key_text.specs.Kinds.{kind_text};
ghost use Rattle.diff_text.specs.Objects.{text_field, shown_value, side_field, path_field, both_fields, settings_fields, image_fields, phases_fields, line_fields, line_json};

use crate::words::{field_word, key_field_word, line_word, part_name, phase_word, side_word};
use answer_lines::diff_lines::{DiffLine, Shown, Side};
use boot_phases::boot_phases::Phase;
use key_text::{data_form, push_form_fields, push_kind};
use nt_bytes::{Names, Units};
use report_text::line_text::{
    close_object, open_object, push_null_field, push_number_field, push_numbers_field,
    push_text_field, push_texts_field, push_word_field,
};
use std::alloc::{AllocError, Global};

// ---- fields

fn push_word(out: &mut Vec<u8>, name: &[u8], word: &[u8]) -> Result<(), AllocError>
    ensures { OnOk result (out.new.items ≡ out.old.items ++ fields_text ((name.now, Text word.now) ∷ [])) }
{
    push_word_field(out, name, word)
}

fn push_count(out: &mut Vec<u8>, name: &[u8], number: u64) -> Result<(), AllocError>
    ensures { OnOk result (out.new.items ≡ out.old.items ++ fields_text ((name.now, Number number) ∷ [])) }
{
    push_number_field(out, name, number)
}

fn push_u32(out: &mut Vec<u8>, name: &[u8], number: u32) -> Result<(), AllocError>
    ensures { OnOk result (out.new.items ≡ out.old.items ++ fields_text ((name.now, Number number) ∷ [])) }
{
    push_count(out, name, u64::from(number))
}

fn push_text(out: &mut Vec<u8>, name: &[u8], text: &Units) -> Result<(), AllocError>
    ensures { OnOk result (out.new.items ≡ out.old.items ++ fields_text ((name.now, Text text.now) ∷ [])) }
{
    push_text_field(out, name, text.as_slice())
}

fn push_side(out: &mut Vec<u8>, side: Side) -> Result<(), AllocError>
    ensures { OnOk result (out.new.items ≡ out.old.items ++ fields_text (side_field side [])) }
{
    push_word(out, b"side", side_word(side))
}

fn push_path(out: &mut Vec<u8>, path: &Names) -> Result<(), AllocError>
    ensures { OnOk result (out.new.items ≡ out.old.items ++ fields_text (path_field path.now)) }
{
    push_texts_field(out, b"path", path.as_slice())
}

/// Appends what a set has.
fn push_shown(out: &mut Vec<u8>, name: &[u8], shown: &Shown) -> Result<(), AllocError>
    ensures { OnOk result (out.new.items ≡ out.old.items ++ fields_text ((name.now, shown_value shown.now) ∷ [])) }
{
    match shown {
        Shown::Nothing => push_null_field(out, name),
        Shown::Number(number) => push_number_field(out, name, u64::from(*number)),
        Shown::Text(text) => push_text_field(out, name, text.as_slice()),
        Shown::Texts(texts) => push_texts_field(out, name, texts.as_slice()),
        Shown::Numbers(numbers) => push_numbers_field(out, name, numbers.as_slice()),
    }
}

fn push_both(out: &mut Vec<u8>, first: &Shown, second: &Shown) -> Result<(), AllocError>
    ensures { OnOk result (out.new.items ≡ out.old.items ++ fields_text (both_fields first.now second.now [])) }
{
    push_shown(out, b"first", first)?;
    push_shown(out, b"second", second)
}

/// Appends Start, Type and ErrorControl.
fn push_settings(out: &mut Vec<u8>, start: u32, kind: u32, control: u32) -> Result<(), AllocError>
    ensures { OnOk result (out.new.items ≡ out.old.items ++ fields_text (settings_fields start kind control [])) }
{
    push_u32(out, b"start", start)?;
    push_u32(out, b"type", kind)?;
    push_u32(out, b"control", control)
}

/// Appends a set's side, and Start, Type and ErrorControl.
fn push_entry(
    out: &mut Vec<u8>,
    side: Side,
    start: u32,
    kind: u32,
    control: u32,
) -> Result<(), AllocError>
    ensures { OnOk result (out.new.items ≡ out.old.items ++ fields_text (side_field side (settings_fields start kind control []))) }
{
    push_side(out, side)?;
    push_settings(out, start, kind, control)
}

fn push_image(out: &mut Vec<u8>, image: &Shown, name: &Units) -> Result<(), AllocError>
    ensures { OnOk result (out.new.items ≡ out.old.items ++ fields_text (image_fields image.now name.now)) }
{
    push_shown(out, b"image", image)?;
    push_text(out, b"name", name)
}

/// Appends a service that one set alone has.
fn push_only(
    out: &mut Vec<u8>,
    side: Side,
    start: u32,
    kind: u32,
    control: u32,
    image: &Shown,
    name: &Units,
) -> Result<(), AllocError>
    ensures { OnOk result (out.new.items ≡ out.old.items ++ fields_text (side_field side (settings_fields start kind control (image_fields image.now name.now)))) }
{
    push_entry(out, side, start, kind, control)?;
    push_image(out, image, name)
}

fn push_phases(out: &mut Vec<u8>, first: Phase, second: Phase) -> Result<(), AllocError>
    ensures { OnOk result (out.new.items ≡ out.old.items ++ fields_text (phases_fields first second [])) }
{
    push_word(out, b"first", phase_word(first))?;
    push_word(out, b"second", phase_word(second))
}

/// Appends a name that is attempted in two phases.
fn push_phases_of(
    out: &mut Vec<u8>,
    first: Phase,
    second: Phase,
    name: &Units,
) -> Result<(), AllocError>
    ensures { OnOk result (out.new.items ≡ out.old.items ++ fields_text (phases_fields first second (text_field (codes "name") name.now []))) }
{
    push_phases(out, first, second)?;
    push_text(out, b"name", name)
}

/// Appends the type as a field.
fn push_type(alloc: Global, out: &mut Vec<u8>, kind: u32) -> Result<(), AllocError>
    ensures { OnOk result (out.new.items ≡ out.old.items ++ fields_text ((codes "type", Text (kind_text kind)) ∷ [])) }
{
    let mut word = Vec::new(alloc);
    push_kind(alloc, &mut word, kind)?;
    push_word(out, b"type", word.as_slice())
}

/// Appends data of a type, in their form, as fields.
fn push_data(alloc: Global, out: &mut Vec<u8>, kind: u32, bytes: &[u8]) -> Result<(), AllocError>
    ensures { OnOk result (out.new.items ≡ out.old.items ++ fields_text (form_fields (form_of kind bytes.now))) }
{
    let form = data_form(alloc, kind, bytes)?;
    push_form_fields(alloc, out, &form)
}

// ---- a line

fn push_fields(alloc: Global, out: &mut Vec<u8>, line: &DiffLine) -> Result<(), AllocError>
    ensures { OnOk result (out.new.items ≡ out.old.items ++ fields_text (line_fields line.now)) }
{
    match line {
        DiffLine::NoSet { side, number } => {
            push_side(out, *side)?;
            push_u32(out, b"number", *number)
        }
        DiffLine::Sets { first, second } => {
            push_u32(out, b"first", *first)?;
            push_u32(out, b"second", *second)
        }
        DiffLine::Only {
            side,
            start,
            kind,
            control,
            image,
            name,
        } => push_only(out, *side, *start, *kind, *control, image, name),
        DiffLine::Differs {
            field,
            first,
            second,
            name,
        } => {
            push_word(out, b"field", field_word(*field))?;
            push_both(out, first, second)?;
            push_text(out, b"name", name)
        }
        DiffLine::Parts {
            sequence: _,
            place,
            first,
            second,
        } => {
            push_count(out, b"place", *place)?;
            push_both(out, first, second)
        }
        DiffLine::Lone { part, side, name } => {
            push_side(out, *side)?;
            push_text(out, part_name(*part), name)
        }
        DiffLine::Tags {
            first,
            second,
            group,
        } => {
            push_both(out, first, second)?;
            push_text(out, b"group", group)
        }
        DiffLine::StartPhase {
            first,
            second,
            name,
        } => push_phases_of(out, *first, *second, name),
        DiffLine::StartsSame => push_word(out, b"word", b"same"),
        DiffLine::KeyDiffers { field, path } => {
            push_word(out, b"field", key_field_word(*field))?;
            push_path(out, path)
        }
        DiffLine::ValueDiffers { name, path } => {
            push_text(out, b"name", name)?;
            push_path(out, path)
        }
        DiffLine::ValueOnly { side, name, path } => {
            push_side(out, *side)?;
            push_text(out, b"name", name)?;
            push_path(out, path)
        }
        DiffLine::Data {
            side: _,
            kind,
            bytes,
        } => {
            push_type(alloc, out, *kind)?;
            push_data(alloc, out, *kind, bytes.as_slice())
        }
        DiffLine::KeyOnly { side, keys, path } => {
            push_side(out, *side)?;
            push_count(out, b"keys", *keys)?;
            push_path(out, path)
        }
        DiffLine::Stamps { count } | DiffLine::Flags { count } | DiffLine::Differ { count } => {
            push_count(out, b"count", *count)
        }
        DiffLine::Same | DiffLine::End => Ok(()),
    }
}

/// Appends a line as an object.
pub(crate) fn push_line_json(
    alloc: Global,
    out: &mut Vec<u8>,
    line: &DiffLine,
) -> Result<(), AllocError>
    ensures { OnOk result (out.new.items ≡ out.old.items ++ line_json line.now) }
{
    open_object(out, line_word(line))?;
    push_fields(alloc, out, line)?;
    close_object(out)
}
