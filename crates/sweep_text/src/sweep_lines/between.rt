//! The lines between two places of a report.

ghost use Rattle.std.specs.Prelude.{◌≡◌, drop, map, IfOk};
ghost use Rattle.sweep_text.specs.sweep_lines.Pieces as book;
ghost use Rattle.sweep_text.specs.sweep_lines.Pieces.{pieces_of, is_verdict, front_count};

use std::alloc::{AllocError, Global};

/// What stands between the LFs of a text.
fn pieces(alloc: Global, text: &[u8]) -> Result<Vec<&[u8]>, AllocError>
    ensures { IfOk result (λ v. map (λ p. p.now) v.items ≡ pieces_of text.now) }
{
    let mut found = Vec::new(alloc);
    for piece in text.split(|c| *c == b'\n') {
        found.push(piece)?;
    }
    Ok(found)
}

/// Whether the first of the pieces is a verdict.
fn is_verdict(pieces: &[&[u8]]) -> bool
    ensures { result ≡ is_verdict (map (λ p. p.now) pieces.now) }
{
    match pieces {
        [] => false,
        [piece, ..] => piece.starts_with(b"verdict"),
    }
}

/// The pieces without the first `count`.
fn without<'a>(
    alloc: Global,
    pieces: &[&'a [u8]],
    count: usize,
) -> Result<Vec<&'a [u8]>, AllocError>
    ensures { IfOk result (λ v. map (λ p. p.now) v.items ≡ drop count (map (λ p. p.now) pieces.now)) }
{
    Vec::from_slice(alloc, &pieces[count.min(pieces.len())..])
}

/// How many pieces stand before the probe's.
fn front_count(pieces: &[&[u8]]) -> usize
    ensures { result ≡ front_count (map (λ p. p.now) pieces.now) }
{
    let count = pieces.len();
    if count < 4 {
        0
    } else if is_verdict(&pieces[count - 3..]) {
        count - 4
    } else {
        count - 3
    }
}

/// The lines of a report before its probe, without those of the report on the events before; each without its LF.
pub fn lines_between<'a>(
    alloc: Global,
    before: &[u8],
    whole: &'a [u8],
) -> Result<Vec<&'a [u8]>, AllocError>
    ensures { IfOk result (λ v. map (λ p. p.now) v.items ≡ book.lines_between (pieces_of before.now) (pieces_of whole.now)) }
{
    let from = front_count(pieces(alloc, before)?.as_slice());
    let mut all = pieces(alloc, whole)?;
    all.truncate(front_count(all.as_slice()));
    without(alloc, all.as_slice(), from)
}
