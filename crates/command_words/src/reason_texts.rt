//! The line that says why words cannot be parsed.

ghost use Rattle.std.specs.Prelude.{◌≡◌, ◌++◌, codes, IfOk};
ghost use Rattle.command_words.specs.Reasons.{line_of, reason_text, shown};
ghost use Rattle.command_words.specs.Views.{reason_seen};

use crate::reason::Reason;
use crate::walk::is_empty;
use std::alloc::{AllocError, Global};

/// The word, an empty one as two quotation marks.
fn shown<'a>(word: &'a str) -> &'a str
    ensures { result.now ≡ shown word.now }
{
    if is_empty(word.as_bytes()) {
        "\"\""
    } else {
        word
    }
}

fn line_of(alloc: Global, what: &str, word: &str) -> Result<Vec<u8>, AllocError>
    ensures { IfOk result (λ line. line.items ≡ line_of what.now word.now) }
{
    Ok(format!(in alloc; "ntboot: {what} {word}\n")?.into_bytes())
}

fn bad_value_line(alloc: Global, name: &str, word: &str) -> Result<Vec<u8>, AllocError>
    ensures { IfOk result (λ line. line.items ≡ line_of (codes "bad value " ++ name.now) word.now) }
{
    Ok(format!(in alloc; "ntboot: bad value {name} {word}\n")?.into_bytes())
}

/// The line that says why words cannot be parsed, ended by a line feed. A word is printed as it was given, an empty one as two
/// quotation marks.
#[tactic(auto, unfolding(crate::specs::Reasons::reason_text))]
pub fn reason_line(alloc: Global, reason: Reason<'_>) -> Result<Vec<u8>, AllocError>
    ensures exact { IfOk result (λ line. line.items ≡ reason_text (reason_seen reason.entry)) }
{
    match reason {
        Reason::UnknownCommand(word) => line_of(alloc, "unknown command", shown(word)),
        Reason::LeftOver(word) => line_of(alloc, "left over", shown(word)),
        Reason::BadValue(name, word) => bad_value_line(alloc, name, word),
        Reason::UnknownOption(word) => line_of(alloc, "unknown option", word),
        Reason::Twice(name) => line_of(alloc, "twice", name),
        Reason::NoValue(name) => line_of(alloc, "no value", name),
        Reason::Missing(name) => line_of(alloc, "missing", name),
    }
}
