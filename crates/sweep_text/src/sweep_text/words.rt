//! The words of a line's text.

ghost use Rattle.std.specs.Prelude.{◌≡◌, ◌≤◌, drop, length};
ghost use Rattle.std.specs.List.{prefix_len};
ghost use Rattle.sweep_text.specs.sweep_text.Words.{in_word, word_of, after_word, is_told_word, recovers_text, commits_text};

/// How many bytes there are up to the first space.
fn word_len(text: &[u8]) -> usize
    ensures count { result ≡ prefix_len in_word text.now }
    ensures bound { result ≤ length text.now }
{
    let mut count = 0;
    for c in text {
        if *c == b' ' {
            return count;
        }
        count += 1;
    }
    count
}

fn without_first(text: &[u8]) -> &[u8]
    ensures { result.now ≡ drop 1 text.now }
{
    match text {
        [] => text,
        [_, rest @ ..] => rest,
    }
}

/// The first word of a text, and what follows the space after it.
pub(crate) fn words(text: &[u8]) -> (&[u8], &[u8])
    ensures word { result.0.now ≡ word_of text.now }
    ensures after { result.1.now ≡ after_word text.now }
{
    let (word, rest) = text.split_at(word_len(text));
    (word, without_first(rest))
}

/// Whether a line with this first word is reported.
pub(crate) fn is_told(word: &[u8]) -> bool
    ensures { result ≡ is_told_word word.now }
{
    word == b"load".as_slice()
        || word == b"commit".as_slice()
        || word == b"flush".as_slice()
        || word == b"save".as_slice()
        || word == b"refused".as_slice()
        || word == b"verdict".as_slice()
}

/// Whether the line says that a load took the log.
pub(crate) fn says_recovery(text: &[u8]) -> bool
    ensures { result ≡ recovers_text text.now }
{
    let (word, more) = words(text);
    let (_, state) = words(more);
    word == b"load".as_slice() && state == b"recovered".as_slice()
}

/// Whether the line says that a change is on the disk.
pub(crate) fn says_commit(text: &[u8]) -> bool
    ensures { result ≡ commits_text text.now }
{
    let (word, _) = words(text);
    word == b"commit".as_slice()
}
