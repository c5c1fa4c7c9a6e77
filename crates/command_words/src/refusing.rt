//! Words that no command takes, some of which `clap` would.

ghost use Rattle.std.specs.Prelude.{◌≡◌, map, option_map};
ghost use Rattle.std.specs.List.{list_any};
ghost use Rattle.command_words.specs.Walk.{attached_in};
ghost use Rattle.command_words.specs.Clap.{has_one_hyphen, is_empty_value, is_refused};

use crate::walk::{begins_with_hyphen, is_empty};

fn has_one_hyphen(word: &[u8]) -> bool
    ensures { result ≡ has_one_hyphen word.now }
{
    match word {
        [] => false,
        [first] => *first == b'-',
        [first, second, more @ ..] => *first == b'-' && (*second != b'-' || is_empty(more)),
    }
}

/// What stands after the first `=`.
fn attached(text: &[u8]) -> Option<&[u8]>
    ensures { option_map (λ t. t.now) result ≡ attached_in text.now }
{
    let mut rest = text;
    'bytes: while let [first, more @ ..] = rest {
        if *first == b'=' {
            return Some(more);
        }
        rest = more;
    }
    None
}

fn has_empty_value(text: &[u8]) -> bool
    ensures { result ≡ is_empty_value (attached_in text.now) }
{
    match attached(text) {
        None => false,
        Some(value) => is_empty(value),
    }
}

fn is_refused(word: &str) -> bool
    ensures { result ≡ is_refused word.now }
{
    is_empty(word.as_bytes())
        || (has_one_hyphen(word.as_bytes()) && word != "-v")
        || (begins_with_hyphen(word.as_bytes()) && has_empty_value(word.as_bytes()))
}

/// Whether a word is one that no command takes.
pub fn any_refused(words: &[&str]) -> bool
    ensures { result ≡ list_any is_refused (map (λ w. w.now) words.now) }
{
    let mut rest = words;
    'words: while let [word, more @ ..] = rest {
        if is_refused(word) {
            return true;
        }
        rest = more;
    }
    false
}
