//! Where something occurs in something else.

ghost use Rattle.std.specs.Prelude.{◌≡◌};
ghost use Rattle.nt_bytes.specs.Folding.{folded};
ghost use Rattle.find_rule.specs.Matching.{begins_with, is_part, stands};

use nt_bytes::{fold, same_folded};

// ---- texts, letters of either case taken for one

/// Whether units begin with a text.
fn begins_with_text(text: &[u16], units: &[u16]) -> bool
    ensures { result ≡ begins_with (folded text.now) (folded units.now) }
{
    let mut xs = text;
    let mut ys = units;
    'units: loop {
        let [x, more_xs @ ..] = xs else {
            return true;
        };
        let [y, more_ys @ ..] = ys else {
            return false;
        };
        if fold(*x) != fold(*y) {
            return false;
        }
        xs = more_xs;
        ys = more_ys;
    }
}

/// Whether some consecutive units are a text.
#[tactic(auto, using(crate::proofs::MatchLemmas::part_here))]
fn is_text_part(text: &[u16], units: &[u16]) -> bool
    ensures { result ≡ is_part (folded text.now) (folded units.now) }
{
    let mut rest = units;
    'places: loop {
        if begins_with_text(text, rest) {
            return true;
        }
        let [_, more @ ..] = rest else {
            return false;
        };
        rest = more;
    }
}

/// Whether a text occurs in units: as a part of them, or, where that is asked for, as all of them.
#[tactic(auto, using(crate::proofs::MatchLemmas::same_when_folded))]
pub(crate) fn text_stands(exact: bool, text: &[u16], units: &[u16]) -> bool
    ensures { result ≡ stands exact (folded text.now) (folded units.now) }
{
    if exact {
        same_folded(text, units)
    } else {
        is_text_part(text, units)
    }
}

// ---- bytes

/// Whether data begin with these bytes.
fn begins_with_bytes(bytes: &[u8], whole: &[u8]) -> bool
    ensures { result ≡ begins_with bytes.now whole.now }
{
    let mut xs = bytes;
    let mut ys = whole;
    'bytes: loop {
        let [x, more_xs @ ..] = xs else {
            return true;
        };
        let [y, more_ys @ ..] = ys else {
            return false;
        };
        if *x != *y {
            return false;
        }
        xs = more_xs;
        ys = more_ys;
    }
}

/// Whether some consecutive bytes of the data are these.
#[tactic(auto, using(crate::proofs::MatchLemmas::part_here))]
fn is_bytes_part(bytes: &[u8], whole: &[u8]) -> bool
    ensures { result ≡ is_part bytes.now whole.now }
{
    let mut rest = whole;
    'places: loop {
        if begins_with_bytes(bytes, rest) {
            return true;
        }
        let [_, more @ ..] = rest else {
            return false;
        };
        rest = more;
    }
}

/// Whether bytes occur in data: at any offset, or, where that is asked for, as all of them.
pub(crate) fn bytes_stand(exact: bool, bytes: &[u8], whole: &[u8]) -> bool
    ensures { result ≡ stands exact bytes.now whole.now }
{
    if exact {
        bytes == whole
    } else {
        is_bytes_part(bytes, whole)
    }
}
