//! A printed line parted at its blanks, and its numbers.

ghost use Rattle.std.specs.Prelude.{◌≡◌, ◌≤◌, bytes_eq, length, true};
ghost use Rattle.std.specs.List.{All, list_all, position_or_len};
ghost use Rattle.std.specs.Char.{is_ascii_digit};
ghost use Rattle.std.specs.Str.Parse.{digits_value};
ghost use Rattle.refusal_reason.specs.reason_lines.Texts.{after_word, ends_word, first_word, is_number, number_of};

/// Whether the text is this word.
pub(crate) fn is_word(text: &[u8], word: &str) -> bool
    ensures { result ≡ bytes_eq text.now word.now }
{
    text == word.as_bytes()
}

fn ends_word(byte: u8) -> bool
    ensures { result ≡ ends_word byte }
{
    byte == b' ' || byte == b'\n'
}

/// Where the first word ends.
fn word_end(text: &[u8]) -> usize
    ensures { result ≡ position_or_len ends_word text.now }
{
    let mut rest = text;
    let mut end = 0;
    'bytes: while let [byte, more @ ..] = rest {
        if ends_word(*byte) {
            return end;
        }
        rest = more;
        end += 1;
    }
    end
}

/// The first word, and what stands after the byte that ends it.
pub(crate) fn split(text: &[u8]) -> (&[u8], &[u8])
    ensures word { result.0.now ≡ first_word text.now }
    ensures rest { result.1.now ≡ after_word text.now }
{
    let end = word_end(text);
    if end < text.len() {
        (&text[..end], &text[end + 1..])
    } else {
        (text, &[])
    }
}

fn all_digits(word: &[u8]) -> bool
    ensures { result ≡ list_all is_ascii_digit word.now }
{
    word.iter().all(|c| c.is_ascii_digit())
}

fn is_number(word: &[u8]) -> bool
    ensures { result ≡ is_number word.now }
{
    !word.is_empty() && word.len() <= 10 && all_digits(word)
}

/// The number that at most ten digits write.
fn value_of(digits: &[u8]) -> u64
    requires all { All (λ c. is_ascii_digit c ≡ true) digits.now }
    requires short { length digits.now ≤ 10 }
    ensures { result ≡ digits_value 10 digits.now }
{
    let mut value: u64 = 0;
    for c in digits {
        value = value * 10 + u64::from(*c - b'0');
    }
    value
}

/// The number of at most 32 bits that a word of decimal digits writes.
pub(crate) fn number_in(word: &[u8]) -> Option<u32>
    ensures { result ≡ number_of word.now }
{
    if !is_number(word) {
        return None;
    }
    let value = value_of(word);
    if 4_294_967_295 < value {
        return None;
    }
    Some(value as u32)
}
