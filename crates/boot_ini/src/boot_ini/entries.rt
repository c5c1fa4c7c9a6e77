//! An entry of `[operating systems]`.

ghost use Rattle.std.specs.Prelude.{◌≡◌, ◌<◌, ◌≤◌, length, IfOk, Option};
ghost use Rattle.std.specs.List.{position_or_len, before_first, after_first};
ghost use Rattle.boot_ini.specs.boot_ini.Entries.{title_of, behind_title, is_switch, switches_in, entry_of};
ghost use Rattle.nt_bytes.specs.Text.{is_blank};

use crate::boot_ini::ini::{OsEntry, Switches};
use crate::boot_ini::keys::split_line;
use crate::boot_ini::places::{place_of, split_around};
use nt_bytes::{Bytes, trim};
use std::alloc::{AllocError, Global};

fn blank_place(text: &[u8]) -> usize
    ensures place { result ≡ position_or_len is_blank text.now }
    ensures bound { result ≤ length text.now }
{
    let mut place = 0;
    for c in text {
        if *c == b' ' || *c == b'\t' {
            return place;
        }
        place += 1;
    }
    place
}

/// The title, and what follows it.
fn split_title(text: &[u8]) -> (&[u8], &[u8])
    ensures title { result.0.now ≡ title_of text.now }
    ensures behind { result.1.now ≡ behind_title text.now }
{
    if let [b'"', inside @ ..] = text {
        return split_around(inside, place_of(b'"', inside));
    }
    let (title, behind) = text.split_at(place_of(b'/', text));
    (trim(title), behind)
}

/// The word at the front, and what follows the blank after it.
fn split_word(text: &[u8]) -> (&[u8], &[u8])
    requires { 0 < length text.now }
    ensures word { result.0.now ≡ before_first is_blank text.now }
    ensures behind { result.1.now ≡ after_first is_blank text.now }
    ensures shorter { length result.1.now < length text.now }
{
    split_around(text, blank_place(text))
}

fn begins_switch(word: &[u8]) -> bool
    ensures { result ≡ is_switch word.now }
{
    matches!(word, [b'/', ..])
}

/// The words that begin with `/`.
fn switches(alloc: Global, text: &[u8]) -> Result<Switches, AllocError>
    ensures { IfOk result (λ s. s ≡ switches_in text.now) }
{
    let mut found = Switches::new(alloc);
    let mut rest = text;
    while !rest.is_empty() {
        let (word, behind) = split_word(rest);
        if begins_switch(word) {
            found.push(Bytes::from_slice(alloc, word)?)?;
        }
        rest = behind;
    }
    Ok(found)
}

fn made_entry(alloc: Global, path: &[u8], text: &[u8]) -> Result<OsEntry, AllocError>
    ensures path { IfOk result (λ e. e.path ≡ path.now) }
    ensures title { IfOk result (λ e. e.title ≡ title_of text.now) }
    ensures switches { IfOk result (λ e. e.switches ≡ switches_in (behind_title text.now)) }
{
    let (title, behind) = split_title(text);
    Ok(OsEntry {
        path: Bytes::from_slice(alloc, path)?,
        title: Bytes::from_slice(alloc, title)?,
        switches: switches(alloc, behind)?,
    })
}

/// The entry on a line, if it has a path and a `=` after it.
pub fn entry_on(alloc: Global, line: &[u8]) -> Result<Option<OsEntry>, AllocError>
    ensures { IfOk result (λ e. e ≡ entry_of line.now) }
{
    match split_line(line) {
        Some((path, text)) => {
            if path.is_empty() {
                return Ok(None);
            }
            Ok(Some(made_entry(alloc, path, text)?))
        }
        None => Ok(None),
    }
}
