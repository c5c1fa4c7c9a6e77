//! Words and lines of texts in UTF-16 units.

ghost use Rattle.std.specs.Prelude.{◌≡◌, ◌<◌, ◌∷◌, length};
ghost use Rattle.std.specs.Str.{bytes_eq};
ghost use Rattle.std.specs.Str.Lines.{lines, strip_carriage_return};
ghost use Rattle.nt_bytes.specs.Text.{without_front_blanks, without_last_blanks, trimmed};
ghost use Rattle.reg_text.specs.Gives.{Finds};
ghost use Rattle.reg_text.specs.Items.{behind};
ghost use Rattle.reg_text.specs.Reading.{ends_line};

use nt_bytes::fold;

fn without_carriage_return(line: &[u16]) -> &[u16]
    ensures { result.now ≡ strip_carriage_return line.now }
{
    match line {
        [front @ .., 0x0d] => front,
        _ => line,
    }
}

/// The first line of a text that is not empty, and what follows its LF. A CR before the LF is no
/// part of the line.
pub fn first_line(text: &[u16]) -> (&[u16], &[u16])
    requires { 0 < length text.now }
    ensures first { lines text.now ≡ result.0.now ∷ lines result.1.now }
    ensures shorter { length result.1.now < length text.now }
{
    for (i, unit) in text.iter().enumerate() {
        if *unit == 0x0a {
            return (without_carriage_return(&text[..i]), text.split_at(i + 1).1);
        }
    }
    (text, &[])
}

fn after_blanks(text: &[u16]) -> &[u16]
    ensures { result.now ≡ without_front_blanks text.now }
{
    let mut rest = text;
    while let [0x20 | 0x09, more @ ..] = rest {
        rest = more;
    }
    rest
}

fn before_blanks(text: &[u16]) -> &[u16]
    ensures { result.now ≡ without_last_blanks text.now }
{
    let mut rest = text;
    while let [front @ .., 0x20 | 0x09] = rest {
        rest = front;
    }
    rest
}

/// The text without the spaces and tabs at both its ends.
pub fn trim(text: &[u16]) -> &[u16]
    ensures { result.now ≡ trimmed text.now }
{
    before_blanks(after_blanks(text))
}

/// Whether the units are these characters.
pub fn is_text(units: &[u16], text: &[u8]) -> bool
    ensures { result ≡ bytes_eq units.now text.now }
{
    let mut xs = units;
    let mut ys = text;
    'units: loop {
        let [x, more_xs @ ..] = xs else {
            return ys.is_empty();
        };
        let [y, more_ys @ ..] = ys else {
            return false;
        };
        if *x != u16::from(*y) {
            return false;
        }
        xs = more_xs;
        ys = more_ys;
    }
}

/// What follows the word, where the text begins with it, in either case.
pub fn behind<'a>(word: &[u8], text: &'a [u16]) -> Option<&'a [u16]>
    ensures { Finds (λ r. r.now) result (behind word.now text.now) }
{
    let mut xs = text;
    let mut ys = word;
    'units: loop {
        let [y, more_ys @ ..] = ys else {
            return Some(xs);
        };
        let [x, more_xs @ ..] = xs else {
            return None;
        };
        if fold(*x) != fold(u16::from(*y)) {
            return None;
        }
        xs = more_xs;
        ys = more_ys;
    }
}

/// Whether the units end where a line ends.
pub fn ends_line(units: &[u16]) -> bool
    ensures { result ≡ ends_line units.now }
{
    match units {
        [] => true,
        [.., 0x0a] => true,
        _ => false,
    }
}
