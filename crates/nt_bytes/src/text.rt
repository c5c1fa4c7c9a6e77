//! Lines, words and numbers of the texts that people write.

ghost use Rattle.std.specs.Prelude.{◌≡◌, ◌<◌, ◌≤◌, ◌^◌, ◌∷◌, true, false, length};
ghost use Rattle.std.specs.List.{All, list_all};
ghost use Rattle.std.specs.Char.{is_ascii_digit};
ghost use Rattle.std.specs.Fmt.{digit_glyph};
ghost use Rattle.std.specs.Str.Parse.{digits_value};
ghost use Rattle.std.specs.Str.Lines.{lines, strip_carriage_return};
ghost use Rattle.nt_bytes.specs.Text.{without_front_blanks, without_last_blanks, trimmed, is_digits, names_same};

fn without_carriage_return(line: &[u8]) -> &[u8]
    ensures { result.now ≡ strip_carriage_return line.now }
{
    match line {
        [front @ .., b'\r'] => front,
        _ => line,
    }
}

/// The first line of a text that is not empty, and what follows its LF. A CR before the LF is no
/// part of the line.
pub fn first_line(text: &[u8]) -> (&[u8], &[u8])
    requires { 0 < length text.now }
    ensures first { lines text.now ≡ result.0.now ∷ lines result.1.now }
    ensures shorter { length result.1.now < length text.now }
{
    for (i, c) in text.iter().enumerate() {
        if *c == b'\n' {
            return (without_carriage_return(&text[..i]), text.split_at(i + 1).1);
        }
    }
    (text, &[])
}

fn after_blanks(text: &[u8]) -> &[u8]
    ensures { result.now ≡ without_front_blanks text.now }
{
    let mut rest = text;
    while let [b' ' | b'\t', more @ ..] = rest {
        rest = more;
    }
    rest
}

fn before_blanks(text: &[u8]) -> &[u8]
    ensures { result.now ≡ without_last_blanks text.now }
{
    let mut rest = text;
    while let [front @ .., b' ' | b'\t'] = rest {
        rest = front;
    }
    rest
}

/// The text without the spaces and tabs at both its ends.
pub fn trim(text: &[u8]) -> &[u8]
    ensures { result.now ≡ trimmed text.now }
{
    before_blanks(after_blanks(text))
}

fn all_digits(word: &[u8]) -> bool
    ensures { result ≡ list_all is_ascii_digit word.now }
{
    word.iter().all(|c| c.is_ascii_digit())
}

/// Whether the word is one or more decimal digits.
pub fn are_digits(word: &[u8]) -> bool
    ensures { result ≡ is_digits word.now }
{
    !word.is_empty() && all_digits(word)
}

/// The number that at most ten decimal digits write.
pub fn value_of(digits: &[u8]) -> u64
    requires all { All (λ c. is_ascii_digit c ≡ true) digits.now }
    requires short { length digits.now ≤ 10 }
    ensures value { result ≡ digits_value 10 digits.now }
    ensures bound { result < 10 ^ length digits.now }
{
    let mut value: u64 = 0;
    for c in digits {
        value = value * 10 + u64::from(*c - b'0');
    }
    value
}

/// The lower-case hexadecimal digit of a value below 16.
pub fn hex_digit(value: u32) -> u8
    requires { value < 16 }
    ensures { result ≡ digit_glyph false value }
{
    if value < 10 {
        b'0' + value as u8
    } else {
        b'a' + (value as u8 - 10)
    }
}

/// Whether the name is the word, but for the case of `a` to `z`.
pub fn is_named(name: &[u8], word: &[u8]) -> bool
    ensures { result ≡ names_same name.now word.now }
{
    name.eq_ignore_ascii_case(word)
}
