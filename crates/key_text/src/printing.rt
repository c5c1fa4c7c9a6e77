//! Forms of data as texts, and as fields of objects.

ghost use Rattle.std.specs.Prelude.{◌≡◌, ◌++◌, length, codes, OnOk};
ghost use Rattle.std.specs.List.{flat_map};
ghost use Rattle.std.specs.Fmt.{decimal};
ghost use Rattle.std.specs.Int.{w32, w64, to_be_bytes};
ghost use Rattle.hex.specs.Hex.{encode_lower};
ghost use Rattle.report_text.specs.line_text.Objects.{fields_text};
ghost use Rattle.report_text.specs.line_text.Quoted.{quoted};
ghost use Rattle.key_text.specs.Data.{raw_text, form_text, bytes_fields, string_fields, form_fields};

use crate::data::DataForm;
use nt_bytes::Units;
use report_text::line_text::{
    push_flag_field, push_hex, push_number, push_number_field, push_quoted, push_text_field,
    push_texts_field, push_word_field,
};
use std::alloc::{AllocError, Global};

/// Appends bytes after their count.
pub(crate) fn push_raw(alloc: Global, out: &mut Vec<u8>, bytes: &[u8]) -> Result<(), AllocError>
    ensures { OnOk result (out.new.items ≡ out.old.items ++ raw_text bytes.now) }
{
    out.extend_from_slice(b"hex ")?;
    push_number(out, bytes.len() as u64)?;
    if bytes.is_empty() {
        return Ok(());
    }
    out.push(b' ')?;
    push_hex(alloc, out, bytes)
}

fn push_strings(out: &mut Vec<u8>, strings: &[Units]) -> Result<(), AllocError>
    ensures { OnOk result (out.new.items ≡ out.old.items ++ flat_map (λ item. codes " " ++ quoted item) strings.now) }
{
    for string in strings {
        out.push(b' ')?;
        push_quoted(out, string.as_slice())?;
    }
    Ok(())
}

fn push_counted_strings(out: &mut Vec<u8>, strings: &[Units]) -> Result<(), AllocError>
    ensures { OnOk result (out.new.items ≡ out.old.items ++ decimal (length strings.now) ++ flat_map (λ item. codes " " ++ quoted item) strings.now) }
{
    push_number(out, strings.len() as u64)?;
    push_strings(out, strings)
}

fn push_dword(alloc: Global, out: &mut Vec<u8>, number: u32) -> Result<(), AllocError>
    ensures { OnOk result (out.new.items ≡ out.old.items ++ decimal number ++ codes " 0x" ++ encode_lower (to_be_bytes w32 number)) }
{
    push_number(out, u64::from(number))?;
    out.extend_from_slice(b" 0x")?;
    push_hex(alloc, out, &number.to_be_bytes())
}

fn push_qword(alloc: Global, out: &mut Vec<u8>, number: u64) -> Result<(), AllocError>
    ensures { OnOk result (out.new.items ≡ out.old.items ++ decimal number ++ codes " 0x" ++ encode_lower (to_be_bytes w64 number)) }
{
    push_number(out, number)?;
    out.extend_from_slice(b" 0x")?;
    push_hex(alloc, out, &number.to_be_bytes())
}

fn push_unended(out: &mut Vec<u8>, units: &[u16]) -> Result<(), AllocError>
    ensures { OnOk result (out.new.items ≡ out.old.items ++ quoted units.now ++ codes " unended") }
{
    push_quoted(out, units)?;
    out.extend_from_slice(b" unended")
}

/// Appends data in their form, as a line of text has them.
pub fn push_form(alloc: Global, out: &mut Vec<u8>, form: &DataForm) -> Result<(), AllocError>
    ensures { OnOk result (out.new.items ≡ out.old.items ++ form_text form.now) }
{
    match form {
        DataForm::Dword(number) => push_dword(alloc, out, *number),
        DataForm::Qword(number) => push_qword(alloc, out, *number),
        DataForm::Strings(strings) => push_counted_strings(out, strings.as_slice()),
        DataForm::Ended(units) => push_quoted(out, units.as_slice()),
        DataForm::Unended(units) => push_unended(out, units.as_slice()),
        DataForm::Raw(bytes) => push_raw(alloc, out, bytes.as_slice()),
    }
}

/// Appends the count and the digits of bytes as fields.
pub(crate) fn push_bytes_fields(
    alloc: Global,
    out: &mut Vec<u8>,
    bytes: &[u8],
) -> Result<(), AllocError>
    ensures { OnOk result (out.new.items ≡ out.old.items ++ fields_text (bytes_fields bytes.now)) }
{
    push_number_field(out, b"length", bytes.len() as u64)?;
    let digits = hex::encode(alloc, bytes)?;
    push_word_field(out, b"hex", digits.as_bytes())
}

fn push_string_fields(out: &mut Vec<u8>, units: &[u16], ended: bool) -> Result<(), AllocError>
    ensures { OnOk result (out.new.items ≡ out.old.items ++ fields_text (string_fields units.now ended)) }
{
    push_text_field(out, b"text", units)?;
    push_flag_field(out, b"ended", ended)
}

/// Appends data in their form, as fields of an object.
pub fn push_form_fields(alloc: Global, out: &mut Vec<u8>, form: &DataForm) -> Result<(), AllocError>
    ensures { OnOk result (out.new.items ≡ out.old.items ++ fields_text (form_fields form.now)) }
{
    match form {
        DataForm::Dword(number) => push_number_field(out, b"number", u64::from(*number)),
        DataForm::Qword(number) => push_number_field(out, b"number", *number),
        DataForm::Strings(strings) => push_texts_field(out, b"list", strings.as_slice()),
        DataForm::Ended(units) => push_string_fields(out, units.as_slice(), true),
        DataForm::Unended(units) => push_string_fields(out, units.as_slice(), false),
        DataForm::Raw(bytes) => push_bytes_fields(alloc, out, bytes.as_slice()),
    }
}
