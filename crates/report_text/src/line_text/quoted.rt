//! Texts in quotes: JSON strings in ASCII.

ghost use Rattle.std.specs.Prelude.{◌≡◌, ◌++◌, OnOk};
ghost use Rattle.std.specs.List.{flat_map};
ghost use Rattle.report_text.specs.line_text.Quoted.{quoted_unit, quoted, more_quoted, quoted_list};

use crate::boot_report::push_name;
use nt_bytes::Units;
use std::alloc::AllocError;

#[tactic(auto, unfolding(crate::specs::line_text::Quoted::quoted_unit))]
fn push_quoted_unit(out: &mut Vec<u8>, unit: u16) -> Result<(), AllocError>
    ensures { OnOk result (out.new.items ≡ out.old.items ++ quoted_unit unit) }
{
    if unit == 0x22 {
        return out.extend_from_slice(b"\\\"");
    }
    if unit == 0x5c {
        return out.extend_from_slice(b"\\\\");
    }
    push_name(out, &[unit])
}

fn push_units(out: &mut Vec<u8>, units: &[u16]) -> Result<(), AllocError>
    ensures { OnOk result (out.new.items ≡ out.old.items ++ flat_map quoted_unit units.now) }
{
    for unit in units {
        push_quoted_unit(out, *unit)?;
    }
    Ok(())
}

fn push_bytes(out: &mut Vec<u8>, bytes: &[u8]) -> Result<(), AllocError>
    ensures { OnOk result (out.new.items ≡ out.old.items ++ flat_map quoted_unit bytes.now) }
{
    for byte in bytes {
        push_quoted_unit(out, u16::from(*byte))?;
    }
    Ok(())
}

/// Appends a text in quotes: `"` and `\` with a `\` before them, units outside 0x20 to 0x7E as `\u` and four lower-case
/// hexadecimal digits.
pub fn push_quoted(out: &mut Vec<u8>, units: &[u16]) -> Result<(), AllocError>
    ensures { OnOk result (out.new.items ≡ out.old.items ++ quoted units.now) }
{
    out.push(b'"')?;
    push_units(out, units)?;
    out.push(b'"')?;
    Ok(())
}

/// Appends a text whose units are bytes, as a word or a path of boot.ini, in quotes.
pub fn push_quoted_word(out: &mut Vec<u8>, word: &[u8]) -> Result<(), AllocError>
    ensures { OnOk result (out.new.items ≡ out.old.items ++ quoted word.now) }
{
    out.push(b'"')?;
    push_bytes(out, word)?;
    out.push(b'"')?;
    Ok(())
}

fn push_more_quoted(out: &mut Vec<u8>, texts: &[Units]) -> Result<(), AllocError>
    ensures { OnOk result (out.new.items ≡ out.old.items ++ more_quoted texts.now) }
{
    for text in texts {
        out.push(b',')?;
        push_quoted(out, text.as_slice())?;
    }
    Ok(())
}

/// Appends texts in quotes, with commas between them.
pub fn push_quoted_texts(out: &mut Vec<u8>, texts: &[Units]) -> Result<(), AllocError>
    ensures { OnOk result (out.new.items ≡ out.old.items ++ quoted_list texts.now) }
{
    let [first, rest @ ..] = texts else {
        return Ok(());
    };
    push_quoted(out, first.as_slice())?;
    push_more_quoted(out, rest)
}
