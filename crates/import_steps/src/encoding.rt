//! A text in UTF-8 as the same text in UTF-16.

ghost use Rattle.std.specs.Prelude.{◌≡◌, ◌++◌, Some, None, IfOk, OnOk};
ghost use Rattle.std.specs.List.{flat_map};
ghost use Rattle.std.specs.Str.{chars};
ghost use Rattle.reg_text.specs.Writing.{unit_bytes};
ghost use Rattle.import_steps.specs.Encoding.{unmarked, char_bytes, wide_text, utf16_of};

use nt_bytes::Bytes;
use std::alloc::{AllocError, Global};
use std::str::from_utf8;

/// What follows the three bytes of a mark, where the text begins with them.
#[tactic(auto, unfolding(crate::specs::Encoding::unmarked))]
fn unmarked(text: &[u8]) -> &[u8]
    ensures { result.now ≡ unmarked text.now }
{
    match text {
        [0xef, 0xbb, 0xbf, rest @ ..] => rest,
        _ => text,
    }
}

fn push_unit(out: &mut Vec<u8>, unit: u16) -> Result<(), AllocError>
    ensures { OnOk result (out.new.items ≡ out.old.items ++ unit_bytes unit) }
{
    out.push((unit % 256) as u8)?;
    out.push((unit / 256) as u8)?;
    Ok(())
}

fn push_units(out: &mut Vec<u8>, units: &[u16]) -> Result<(), AllocError>
    ensures { OnOk result (out.new.items ≡ out.old.items ++ flat_map unit_bytes units.now) }
{
    for unit in units {
        push_unit(out, *unit)?;
    }
    Ok(())
}

fn push_char(out: &mut Vec<u8>, c: char) -> Result<(), AllocError>
    ensures { OnOk result (out.new.items ≡ out.old.items ++ char_bytes c) }
{
    let mut pair = [0u16; 2];
    push_units(out, c.encode_utf16(&mut pair))
}

fn push_chars(out: &mut Vec<u8>, chars: &[char]) -> Result<(), AllocError>
    ensures { OnOk result (out.new.items ≡ out.old.items ++ flat_map char_bytes chars.now) }
{
    for c in chars {
        push_char(out, *c)?;
    }
    Ok(())
}

fn chars_of(alloc: Global, text: &str) -> Result<Vec<char>, AllocError>
    ensures { IfOk result (λ v. v.items ≡ chars text.now) }
{
    text.chars().collect(alloc)
}

/// A text after the mark of texts in UTF-16.
fn wide_text(alloc: Global, text: &str) -> Result<Bytes, AllocError>
    ensures { IfOk result (λ b. b ≡ wide_text text.now) }
{
    let chars = chars_of(alloc, text)?;
    let mut out = Vec::from_slice(alloc, b"\xff\xfe")?;
    push_chars(&mut out, chars.as_slice())?;
    Ok(Bytes::from_vec(out))
}

/// The same text in UTF-16 after its mark, where the text is in UTF-8; one that begins with the mark EF BB BF is read after it.
pub fn utf16_of(alloc: Global, text: &[u8]) -> Result<Option<Bytes>, AllocError>
    ensures { IfOk result (λ o. o ≡ utf16_of text.now) }
{
    match from_utf8(unmarked(text)) {
        Ok(text) => Ok(Some(wide_text(alloc, text)?)),
        Err(_) => Ok(None),
    }
}
