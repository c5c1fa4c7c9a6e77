//! The files that the command line names.

ghost use Rattle.std.specs.Prelude.{◌≡◌, map, option_map};
ghost use Rattle.std.specs.List.{before_first, position_or_len};
ghost use Rattle.refusal_reason.specs.reason_lines.Files.{after_equals, attached, file_at, file_in, first_of, is_equals, is_file, is_long, is_named, missing_in, missing_name, named_by, names, option_for, place_of, read_options, value_of};

use crate::reason_lines::words::is_word;

/// The options that name files to read, in the order in which every command asks for them.
static READ: &[&str] = &[
    "--script",
    "--commands",
    "--boot-ini",
    "--hive",
    "--alt",
    "--log",
    "--log1",
    "--log2",
    "--with",
    "--with-log",
    "--reg",
];

/// The table is the one of the definitions.
fn read_options() -> &'static [&'static str]
    ensures { map (λ o. o.now) result.now ≡ read_options }
{
    READ
}

/// What stands before the first `=`, and what stands after it if there is one.
fn split(word: &str) -> (&str, Option<&str>)
    ensures name { result.0.now ≡ before_first is_equals word.now }
    ensures value { option_map (λ t. t.now) result.1 ≡ after_equals word.now }
{
    match word.split_once('=') {
        Some((name, value)) => (name, Some(value)),
        None => (word, None),
    }
}

/// The value of the option in a word of its own, `--option=value`.
fn attached<'a>(option: &str, word: &'a str) -> Option<&'a str>
    ensures { option_map (λ t. t.now) result ≡ attached option.now word.now }
{
    let (name, value) = split(word);
    if name == option { value } else { None }
}

fn first_of<'a>(words: &[&'a str]) -> Option<&'a str>
    ensures { option_map (λ t. t.now) result ≡ first_of (map (λ w. w.now) words.now) }
{
    match words {
        [] => None,
        [word, ..] => Some(*word),
    }
}

/// The value of the option among these words, where it is given.
pub fn value_of<'a>(words: &[&'a str], option: &str) -> Option<&'a str>
    ensures { option_map (λ t. t.now) result ≡ value_of (map (λ w. w.now) words.now) option.now }
{
    let mut rest = words;
    'words: while let [word, more @ ..] = rest {
        if *word == option {
            return first_of(more);
        }
        if let Some(value) = attached(option, word) {
            return Some(value);
        }
        rest = more;
    }
    None
}

fn is_file(value: Option<&str>, file: &str) -> bool
    ensures { result ≡ is_file (option_map (λ t. t.now) value.entry) file.now }
{
    match value {
        Some(value) => value == file,
        None => false,
    }
}

/// Whether the option names this file.
pub fn is_option_of(words: &[&str], option: &str, file: &str) -> bool
    ensures { result ≡ names (map (λ w. w.now) words.now) option.now file.now }
{
    is_file(value_of(words, option), file)
}

/// The first option, in the order in which files are asked for, that names this file.
pub fn option_for(words: &[&str], file: &str) -> Option<&'static str>
    ensures { option_map (λ t. t.now) result ≡ option_for (map (λ w. w.now) words.now) file.now }
{
    let mut rest = read_options();
    'options: while let [option, more @ ..] = rest {
        if is_option_of(words, option, file) {
            return Some(*option);
        }
        rest = more;
    }
    None
}

/// What stands after the first `=` of a word, or the whole word.
fn file_in<'a>(word: &'a str) -> &'a str
    ensures { result.now ≡ file_in word.now }
{
    match split(word).1 {
        Some(value) => value,
        None => word,
    }
}

/// The NAME of a line `no file NAME`.
fn missing_name(text: &[u8]) -> Option<&[u8]>
    ensures { option_map (λ t. t.now) result ≡ missing_name text.now }
{
    if 9 <= text.len() && is_word(&text[..8], "no file ") && text[text.len() - 1] == b'\n' {
        Some(&text[8..text.len() - 1])
    } else {
        None
    }
}

/// The place of the first word that names the file of a line `no file NAME`.
pub fn missing_in(words: &[&str], text: &[u8]) -> Option<usize>
    ensures { result ≡ missing_in (map (λ w. w.now) words.now) text.now }
{
    match missing_name(text) {
        Some(name) => place_of(words, name),
        None => None,
    }
}

/// Whether the word begins with two hyphens.
fn is_long(word: &[u8]) -> bool
    ensures { result ≡ is_long word.now }
{
    match word {
        [b'-', b'-', ..] => true,
        _ => false,
    }
}

/// The file that a word names: what stands after the first `=` of an option, or the whole word.
fn named_by<'a>(word: &'a str) -> &'a str
    ensures { result.now ≡ named_by word.now }
{
    if is_long(word.as_bytes()) {
        file_in(word)
    } else {
        word
    }
}

/// Whether the word names this file.
fn is_named(file: &[u8], word: &str) -> bool
    ensures { result ≡ is_named file.now word.now }
{
    is_word(file, named_by(word))
}

/// The place of the first word that names this file, or how many words there are.
fn place_or_len(words: &[&str], file: &[u8]) -> usize
    ensures { result ≡ position_or_len (is_named file.now) (map (λ w. w.now) words.now) }
{
    let mut rest = words;
    let mut place = 0;
    'words: while let [word, more @ ..] = rest {
        if is_named(file, word) {
            return place;
        }
        rest = more;
        place += 1;
    }
    place
}

/// The place of the first word that names this file.
pub fn place_of(words: &[&str], file: &[u8]) -> Option<usize>
    ensures { result ≡ place_of (map (λ w. w.now) words.now) file.now }
{
    let place = place_or_len(words, file);
    if place < words.len() {
        Some(place)
    } else {
        None
    }
}

/// The file that the word at a place names.
pub fn file_at<'a>(words: &[&'a str], place: Option<usize>) -> Option<&'a str>
    ensures { option_map (λ t. t.now) result ≡ file_at (map (λ w. w.now) words.now) place }
{
    match place {
        Some(place) if place < words.len() => Some(named_by(words[place])),
        _ => None,
    }
}
