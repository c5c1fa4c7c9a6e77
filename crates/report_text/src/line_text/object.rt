//! A line as one object of JSON, field by field.

ghost use Rattle.std.specs.Prelude.{◌≡◌, ◌++◌, codes, OnOk};
ghost use Rattle.std.specs.List.{flat_map, join_by};
ghost use Rattle.std.specs.Fmt.{decimal};
ghost use Rattle.report_text.specs.line_text.Objects.{Number, Text, Numbers, Texts, Flag, Null, value_text, key_text, field_text, opening_text};

use crate::line_text::digits::push_number;
use crate::line_text::quoted::{push_quoted, push_quoted_texts, push_quoted_word};
use nt_bytes::Units;
use std::alloc::AllocError;

/// Begins the object of a line of this word, of plain ASCII.
pub fn open_object(out: &mut Vec<u8>, word: &[u8]) -> Result<(), AllocError>
    ensures { OnOk result (out.new.items ≡ out.old.items ++ opening_text word.now) }
{
    out.extend_from_slice(b"{\"line\":\"")?;
    out.extend_from_slice(word)?;
    out.push(b'"')?;
    Ok(())
}

/// Ends an object and its line.
pub fn close_object(out: &mut Vec<u8>) -> Result<(), AllocError>
    ensures { OnOk result (out.new.items ≡ out.old.items ++ codes "}\n") }
{
    out.extend_from_slice(b"}\n")
}

fn push_key(out: &mut Vec<u8>, name: &[u8]) -> Result<(), AllocError>
    ensures { OnOk result (out.new.items ≡ out.old.items ++ key_text name.now) }
{
    out.extend_from_slice(b",\"")?;
    out.extend_from_slice(name)?;
    out.extend_from_slice(b"\":")
}

/// Appends a field whose value is a number.
pub fn push_number_field(out: &mut Vec<u8>, name: &[u8], number: u64) -> Result<(), AllocError>
    ensures { OnOk result (out.new.items ≡ out.old.items ++ field_text name.now (Number number)) }
{
    push_key(out, name)?;
    push_number(out, number)
}

/// Appends a field whose value is a text.
pub fn push_text_field(out: &mut Vec<u8>, name: &[u8], text: &[u16]) -> Result<(), AllocError>
    ensures { OnOk result (out.new.items ≡ out.old.items ++ field_text name.now (Text text.now)) }
{
    push_key(out, name)?;
    push_quoted(out, text)
}

/// Appends a field whose value is a text of bytes, as a word.
pub fn push_word_field(out: &mut Vec<u8>, name: &[u8], word: &[u8]) -> Result<(), AllocError>
    ensures { OnOk result (out.new.items ≡ out.old.items ++ field_text name.now (Text word.now)) }
{
    push_key(out, name)?;
    push_quoted_word(out, word)
}

/// Appends a field whose value is a list of texts, as a path by its names.
pub fn push_texts_field(out: &mut Vec<u8>, name: &[u8], texts: &[Units]) -> Result<(), AllocError>
    ensures { OnOk result (out.new.items ≡ out.old.items ++ field_text name.now (Texts texts.now)) }
{
    push_key(out, name)?;
    out.push(b'[')?;
    push_quoted_texts(out, texts)?;
    out.push(b']')?;
    Ok(())
}

fn push_more_numbers(out: &mut Vec<u8>, numbers: &[u32]) -> Result<(), AllocError>
    ensures { OnOk result (out.new.items ≡ out.old.items ++ flat_map (λ n. codes "," ++ decimal n) numbers.now) }
{
    for number in numbers {
        out.push(b',')?;
        push_number(out, u64::from(*number))?;
    }
    Ok(())
}

/// Appends numbers in decimal, with commas between them.
pub fn push_numbers(out: &mut Vec<u8>, numbers: &[u32]) -> Result<(), AllocError>
    ensures { OnOk result (out.new.items ≡ out.old.items ++ join_by decimal (codes ",") numbers.now) }
{
    let [first, rest @ ..] = numbers else {
        return Ok(());
    };
    push_number(out, u64::from(*first))?;
    push_more_numbers(out, rest)
}

/// Appends a field whose value is a list of numbers.
pub fn push_numbers_field(out: &mut Vec<u8>, name: &[u8], numbers: &[u32]) -> Result<(), AllocError>
    ensures { OnOk result (out.new.items ≡ out.old.items ++ field_text name.now (Numbers numbers.now)) }
{
    push_key(out, name)?;
    out.push(b'[')?;
    push_numbers(out, numbers)?;
    out.push(b']')?;
    Ok(())
}

fn flag_word(flag: bool) -> &'static [u8]
    ensures { result.now ≡ value_text (Flag flag) }
{
    if flag { b"true" } else { b"false" }
}

/// Appends a field that is true or false.
pub fn push_flag_field(out: &mut Vec<u8>, name: &[u8], flag: bool) -> Result<(), AllocError>
    ensures { OnOk result (out.new.items ≡ out.old.items ++ field_text name.now (Flag flag)) }
{
    push_key(out, name)?;
    out.extend_from_slice(flag_word(flag))
}

/// Appends a field without a value.
pub fn push_null_field(out: &mut Vec<u8>, name: &[u8]) -> Result<(), AllocError>
    ensures { OnOk result (out.new.items ≡ out.old.items ++ field_text name.now Null) }
{
    push_key(out, name)?;
    out.extend_from_slice(b"null")
}
