//! What a set has, and whether another one has the same.

ghost use Rattle.std.specs.Prelude.{◌≡◌, IfOk};
ghost use Rattle.std.specs.Option.{option_copied};
ghost use Rattle.set_diff.specs.Shown.{names_same, numbers_same, shown_same, number_shown, text_shown};

use answer_lines::diff_lines::Shown;
use nt_bytes::{Units, same_folded};
use std::alloc::{AllocError, Global};

/// A number, or nothing.
pub(crate) fn number_shown(number: Option<u32>) -> Shown
    ensures { result ≡ number_shown number }
{
    match number {
        Some(number) => Shown::Number(number),
        None => Shown::Nothing,
    }
}

/// A text, or nothing.
pub(crate) fn text_shown(alloc: Global, text: Option<&Units>) -> Result<Shown, AllocError>
    ensures { IfOk result (λ s. s ≡ text_shown (option_copied text.entry)) }
{
    match text {
        Some(text) => Ok(Shown::Text(text.copy(alloc)?)),
        None => Ok(Shown::Nothing),
    }
}

/// Whether the lists have the same names, letters of either case taken for one.
pub fn names_same(first: &[Units], second: &[Units]) -> bool
    ensures { result ≡ names_same first.now second.now }
{
    let mut xs = first;
    let mut ys = second;
    'names: loop {
        let [x, more_xs @ ..] = xs else {
            return ys.is_empty();
        };
        let [y, more_ys @ ..] = ys else {
            return false;
        };
        if !same_folded(x.as_slice(), y.as_slice()) {
            return false;
        }
        xs = more_xs;
        ys = more_ys;
    }
}

/// Whether the lists have the same numbers.
fn numbers_same(first: &[u32], second: &[u32]) -> bool
    ensures { result ≡ numbers_same first.now second.now }
{
    let mut xs = first;
    let mut ys = second;
    'numbers: loop {
        let [x, more_xs @ ..] = xs else {
            return ys.is_empty();
        };
        let [y, more_ys @ ..] = ys else {
            return false;
        };
        if *x != *y {
            return false;
        }
        xs = more_xs;
        ys = more_ys;
    }
}

/// Whether both are the same.
pub(crate) fn shown_same(first: &Shown, second: &Shown) -> bool
    ensures { result ≡ shown_same first.now second.now }
{
    match (first, second) {
        (Shown::Nothing, Shown::Nothing) => true,
        (Shown::Number(x), Shown::Number(y)) => *x == *y,
        (Shown::Text(x), Shown::Text(y)) => same_folded(x.as_slice(), y.as_slice()),
        (Shown::Texts(xs), Shown::Texts(ys)) => names_same(xs.as_slice(), ys.as_slice()),
        (Shown::Numbers(xs), Shown::Numbers(ys)) => numbers_same(xs.as_slice(), ys.as_slice()),
        _ => false,
    }
}
