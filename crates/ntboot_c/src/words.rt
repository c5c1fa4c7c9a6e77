//! The words of a command line, one a line.

ghost use Rattle.std.specs.Prelude.{map, string_bytes, IfOk};
ghost use Rattle.ntboot_c.specs.Words.{AreWords};

use nt_bytes::first_line;
use std::alloc::{AllocError, Global};
use std::str::from_utf8;

/// The words of a text that has one a line, each ended by a line feed. Where one of them is no UTF-8 there are none, which is bad usage.
pub(crate) fn words_in(alloc: Global, text: &[u8]) -> Result<Vec<String>, AllocError>
    ensures { IfOk result (λ words. AreWords text.now (map string_bytes words.items)) }
{
    let mut words = Vec::new(alloc);
    let mut rest = text;
    while !rest.is_empty() {
        let (line, after) = first_line(rest);
        match from_utf8(line) {
            Ok(word) => words.push(String::from_str(alloc, word)?)?,
            Err(_) => return Ok(Vec::new(alloc)),
        }
        rest = after;
    }
    Ok(words)
}
