//! The lines that order the disk to stop.

ghost use Rattle.std.specs.Prelude.{◌≡◌, ◌≤◌, length, map, IfOk};
ghost use Rattle.std.specs.Str.Lines.{lines};
ghost use Rattle.boot_script.specs.quiet_script.Quiet.{begins_with_now, order_words, trimmed_order, is_order, first_order};

use crate::boot_script::{LineStop, after_spaces, words_in};
use nt_bytes::first_line;
use std::alloc::{AllocError, Global};

fn begins_with_now(words: &[&[u8]]) -> bool
    ensures { result ≡ begins_with_now (map (λ w. w.now) words.now) }
{
    match words {
        [word, ..] => *word == b"now".as_slice(),
        [] => false,
    }
}

/// Whether the words are those of `fault`, or of a `cut` at a call.
#[tactic(auto, unfolding(crate::specs::quiet_script::Quiet::order_words))]
fn order_words(words: &[&[u8]]) -> bool
    ensures { result ≡ order_words (map (λ w. w.now) words.now) }
{
    let [name, words @ ..] = words else {
        return false;
    };
    *name == b"fault".as_slice() || (*name == b"cut".as_slice() && !begins_with_now(words))
}

/// Whether a line that begins with no space orders the disk.
#[tactic(auto, unfolding(crate::specs::quiet_script::Quiet::trimmed_order))]
fn trimmed_order(alloc: Global, line: &[u8]) -> Result<bool, AllocError>
    ensures { IfOk result (λ is. is ≡ trimmed_order line.now) }
{
    match line {
        [] | [b'#', ..] => Ok(false),
        _ => match words_in(alloc, line) {
            Ok(words) => Ok(order_words(&words)),
            Err(LineStop::Kind(_)) => Ok(false),
            Err(LineStop::Memory) => Err(AllocError),
        },
    }
}

fn is_order(alloc: Global, line: &[u8]) -> Result<bool, AllocError>
    ensures { IfOk result (λ is. is ≡ is_order line.now) }
{
    trimmed_order(alloc, after_spaces(line))
}

/// The number of the first line that orders the disk.
pub(crate) fn first_order(alloc: Global, text: &[u8]) -> Result<Option<u32>, AllocError>
    requires { length text.now ≤ 65536 }
    ensures { IfOk result (λ n. n ≡ first_order 1 (lines text.now)) }
{
    let mut number: u32 = 1;
    let mut rest = text;
    while !rest.is_empty() {
        let (line, after) = first_line(rest);
        if is_order(alloc, line)? {
            return Ok(Some(number));
        }
        number += 1;
        rest = after;
    }
    Ok(None)
}
