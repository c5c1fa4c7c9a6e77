//! Text between quotes, and the head of the graph.

ghost use Rattle.std.specs.Prelude.{◌≡◌, ◌-◌, ◌++◌, length, take, codes, OnOk, IfOk};
ghost use Rattle.std.specs.List.{flat_map};
ghost use Rattle.why_text.specs.graph_text.Dot.{stand_in, replaced, in_quotes, head_part, head_text};

use crate::why_text::lines_text;
use answer_lines::why_lines::WhyLine;
use report_text::line_text::ReportForm;
use std::alloc::{AllocError, Global};
use std::slice::from_ref;

/// Appends a text.
pub(crate) fn push_text(out: &mut Vec<u8>, text: &[u8]) -> Result<(), AllocError>
    ensures { OnOk result (out.new.items ≡ out.old.items ++ text.now) }
{
    out.extend_from_slice(text)
}

/// Appends a byte, or what stands for it.
fn push_byte(out: &mut Vec<u8>, byte: u8, other: &[u8], c: u8) -> Result<(), AllocError>
    ensures { OnOk result (out.new.items ≡ out.old.items ++ stand_in byte other.now c) }
{
    if c == byte {
        return out.extend_from_slice(other);
    }
    out.push(c)?;
    Ok(())
}

/// The text with another one for each such byte.
fn replaced(alloc: Global, byte: u8, other: &[u8], text: &[u8]) -> Result<Vec<u8>, AllocError>
    ensures { IfOk result (λ out. out.items ≡ replaced byte other.now text.now) }
{
    let mut out = Vec::new(alloc);
    for c in text {
        push_byte(&mut out, byte, other, *c)?;
    }
    Ok(out)
}

/// The text as it is between quotes.
fn in_quotes(alloc: Global, text: &[u8]) -> Result<Vec<u8>, AllocError>
    ensures { IfOk result (λ out. out.items ≡ in_quotes text.now) }
{
    let text = replaced(alloc, b'&', b"&amp;", text)?;
    let text = replaced(alloc, b'\\', b"\\\\", text.as_slice())?;
    replaced(alloc, b'"', b"\\\"", text.as_slice())
}

/// Appends the text as it is between quotes.
pub(crate) fn push_in_quotes(
    alloc: Global,
    out: &mut Vec<u8>,
    text: &[u8],
) -> Result<(), AllocError>
    ensures { OnOk result (out.new.items ≡ out.old.items ++ in_quotes text.now) }
{
    let text = in_quotes(alloc, text)?;
    out.extend_from_slice(text.as_slice())
}

/// Appends the text without its last byte.
fn push_unended(out: &mut Vec<u8>, text: &[u8]) -> Result<(), AllocError>
    ensures { OnOk result (out.new.items ≡ out.old.items ++ take (length text.now - 1) text.now) }
{
    let end = text.len().saturating_sub(1);
    out.extend_from_slice(&text[..end])
}

/// Appends a line without its end.
fn push_part(alloc: Global, out: &mut Vec<u8>, line: &WhyLine) -> Result<(), AllocError>
    ensures { OnOk result (out.new.items ≡ out.old.items ++ head_part line.now) }
{
    let text = lines_text(alloc, ReportForm::Text, from_ref(line))?;
    push_unended(out, text.as_slice())
}

fn push_next(alloc: Global, out: &mut Vec<u8>, line: &WhyLine) -> Result<(), AllocError>
    ensures { OnOk result (out.new.items ≡ out.old.items ++ codes ", " ++ head_part line.now) }
{
    out.extend_from_slice(b", ")?;
    push_part(alloc, out, line)
}

fn push_more(alloc: Global, out: &mut Vec<u8>, lines: &[WhyLine]) -> Result<(), AllocError>
    ensures { OnOk result (out.new.items ≡ out.old.items ++ flat_map (λ line. codes ", " ++ head_part line) lines.now) }
{
    for line in lines {
        push_next(alloc, out, line)?;
    }
    Ok(())
}

/// Appends the lines without their ends, with commas between them.
pub(crate) fn push_head(
    alloc: Global,
    out: &mut Vec<u8>,
    head: &[WhyLine],
) -> Result<(), AllocError>
    ensures { OnOk result (out.new.items ≡ out.old.items ++ head_text head.now) }
{
    let [first, rest @ ..] = head else {
        return Ok(());
    };
    push_part(alloc, out, first)?;
    push_more(alloc, out, rest)
}
