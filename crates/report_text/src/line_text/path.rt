//! Paths from a key down.

ghost use Rattle.std.specs.Prelude.{◌≡◌, ◌++◌, codes, OnOk, IfOk};
ghost use Rattle.std.specs.List.{flat_map, list_all};
ghost use Rattle.nt_bytes.specs.Text.{is_printable};
ghost use Rattle.report_text.specs.line_text.Paths.{joined_path, begins_plain, is_plain, written, written_path};

use crate::boot_report::push_name;
use crate::line_text::quoted::push_quoted;
use nt_bytes::Units;
use std::alloc::{AllocError, Global};

fn begins_plain(text: &[u16]) -> bool
    ensures { result ≡ begins_plain text.now }
{
    match text {
        [] => false,
        [first, ..] => *first != 0x22,
    }
}

fn all_printable(text: &[u16]) -> bool
    ensures { result ≡ list_all is_printable text.now }
{
    text.iter().all(|unit| (0x20..=0x7e).contains(unit))
}

fn is_plain(text: &[u16]) -> bool
    ensures { result ≡ is_plain text.now }
{
    begins_plain(text) && all_printable(text)
}

/// Appends the text as it is where it isn't empty, doesn't begin with a quote and has units from 0x20 to 0x7E alone; else in
/// quotes.
pub fn push_written(out: &mut Vec<u8>, text: &[u16]) -> Result<(), AllocError>
    ensures { OnOk result (out.new.items ≡ out.old.items ++ written text.now) }
{
    if is_plain(text) {
        push_name(out, text)
    } else {
        push_quoted(out, text)
    }
}

fn push_names(joined: &mut Vec<u16>, names: &[Units]) -> Result<(), AllocError>
    ensures { OnOk result (joined.new.items ≡ joined.old.items ++ flat_map (λ name. codes "\\" ++ name) names.now) }
{
    for name in names {
        joined.push(0x5c)?;
        joined.extend_from_slice(name.as_slice())?;
    }
    Ok(())
}

fn joined(alloc: Global, path: &[Units]) -> Result<Vec<u16>, AllocError>
    ensures { IfOk result (λ text. text.items ≡ joined_path path.now) }
{
    let mut text = Vec::new(alloc);
    let [first, rest @ ..] = path else {
        return Ok(text);
    };
    text.extend_from_slice(first.as_slice())?;
    push_names(&mut text, rest)?;
    Ok(text)
}

/// Appends the path: its names joined by backslashes, as `push_written` appends a text.
pub fn push_path(alloc: Global, out: &mut Vec<u8>, path: &[Units]) -> Result<(), AllocError>
    ensures { OnOk result (out.new.items ≡ out.old.items ++ written_path path.now) }
{
    let text = joined(alloc, path)?;
    push_written(out, text.as_slice())
}
