//! Words are parted by spaces, and a text between two `"` is one word.

ghost use Rattle.std.specs.Prelude.{◌≡◌, ◌<◌, ◌≤◌, length, IfOk, map};
ghost use Rattle.std.specs.List.{prefix_len};
ghost use Rattle.nt_bytes.specs.Reading.{Sees};
ghost use Rattle.boot_script.specs.boot_script.Words.{is_plain, is_quotable, without_spaces, word_at, ended, words_of, Gives};

use crate::boot_script::stop::{LineStop, ScriptFaultKind};
use std::alloc::Global;

fn plain_count(text: &[u8]) -> usize
    ensures count { result ≡ prefix_len is_plain text.now }
    ensures bound { result ≤ length text.now }
{
    let mut count = 0;
    for c in text {
        if !(0x21..=0x7e).contains(c) || *c == b'"' {
            return count;
        }
        count += 1;
    }
    count
}

fn quotable_count(text: &[u8]) -> usize
    ensures count { result ≡ prefix_len is_quotable text.now }
    ensures bound { result ≤ length text.now }
{
    let mut count = 0;
    for c in text {
        if !(0x20..=0x7e).contains(c) || *c == b'"' {
            return count;
        }
        count += 1;
    }
    count
}

/// The text without the spaces at its front.
pub fn after_spaces(text: &[u8]) -> &[u8]
    ensures rest { result.now ≡ without_spaces text.now }
    ensures bound { length result.now ≤ length text.now }
{
    let mut rest = text;
    while let [b' ', more @ ..] = rest {
        rest = more;
    }
    rest
}

/// The word with what follows it, which is nothing or a space.
fn ending<'a>(word: &'a [u8], rest: &'a [u8]) -> Result<(&'a [u8], &'a [u8]), ScriptFaultKind>
    ensures exact { Sees (λ x. (x.0.now, x.1.now)) result (ended word.now rest.now) }
    ensures rest { IfOk result (λ x. x.1.now ≡ rest.now) }
{
    match rest {
        [] | [b' ', ..] => Ok((word, rest)),
        _ => Err(ScriptFaultKind::Line),
    }
}

#[tactic(auto, unfolding(crate::specs::boot_script::Words::word_at))]
fn first_word(text: &[u8]) -> Result<(&[u8], &[u8]), ScriptFaultKind>
    ensures exact { Sees (λ x. (x.0.now, x.1.now)) result (word_at text.now) }
    ensures shorter { IfOk result (λ x. length x.1.now < length text.now) }
{
    if let [b'"', inside @ ..] = text {
        let (word, rest) = inside.split_at(quotable_count(inside));
        let [b'"', after @ ..] = rest else {
            return Err(ScriptFaultKind::Line);
        };
        return ending(word, after);
    }
    let count = plain_count(text);
    if count == 0 {
        return Err(ScriptFaultKind::Line);
    }
    let (word, rest) = text.split_at(count);
    ending(word, rest)
}

/// The words of a line.
pub fn words_in(alloc: Global, line: &[u8]) -> Result<Vec<&[u8]>, LineStop>
    ensures { Gives (λ v. map (λ w. w.now) v.items) result (words_of line.now) }
{
    let mut found = Vec::new(alloc);
    let mut rest = line;
    'words: loop {
        let text = after_spaces(rest);
        if text.is_empty() {
            return Ok(found);
        }
        match first_word(text) {
            Ok((word, after)) => {
                found.push(word)?;
                rest = after;
            }
            Err(kind) => return Err(LineStop::Kind(kind)),
        }
    }
}
