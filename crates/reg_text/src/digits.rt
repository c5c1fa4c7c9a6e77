//! Hexadecimal digits of either case, and the numbers and bytes that they write.

ghost use Rattle.std.specs.Prelude.{◌≡◌, ◌<◌, ◌≤◌, true, length, option_map, IsTrue, IfOk, IfSome};
ghost use Rattle.std.specs.List.{list_all, prefix_len};
ghost use Rattle.std.specs.Char.{digit_value};
ghost use Rattle.std.specs.Str.Parse.{digits_value};
ghost use Rattle.nt_bytes.specs.Reading.{Sees};
ghost use Rattle.reg_text.specs.Gives.{Gives};
ghost use Rattle.reg_text.specs.Digits.{is_hex, byte_of, pair_at, behind_comma, pairs_of, bytes_of};

use crate::stop::{RegFaultKind, RegLineStop};
use nt_bytes::Bytes;
use std::alloc::Global;

/// The value of a digit or a letter, as of a radix up to 36; 36 of another unit.
fn digit(unit: u16) -> u16
    ensures { result ≡ digit_value unit }
{
    match unit {
        0x30..=0x39 => unit - 0x30,
        0x41..=0x5a => unit - 0x41 + 10,
        0x61..=0x7a => unit - 0x61 + 10,
        _ => 36,
    }
}

fn is_hex(unit: u16) -> bool
    ensures { result ≡ is_hex unit }
{
    digit(unit) < 16
}

/// Whether all units are digits.
pub fn all_hex(text: &[u16]) -> bool
    ensures { result ≡ list_all is_hex text.now }
{
    let mut rest = text;
    'units: loop {
        let [unit, more @ ..] = rest else {
            return true;
        };
        if !is_hex(*unit) {
            return false;
        }
        rest = more;
    }
}

/// How many digits are at the front.
pub fn hex_count(text: &[u16]) -> usize
    ensures count { result ≡ prefix_len is_hex text.now }
    ensures bound { result ≤ length text.now }
{
    let mut count = 0;
    for unit in text {
        if !is_hex(*unit) {
            return count;
        }
        count += 1;
    }
    count
}

/// The number that at most eight digits write.
pub fn hex_number(text: &[u16]) -> u32
    requires all { list_all is_hex text.now ≡ true }
    requires short { length text.now ≤ 8 }
    ensures { result ≡ digits_value 16 text.now }
{
    let mut value: u32 = 0;
    for unit in text {
        value = value * 16 + u32::from(digit(*unit));
    }
    value
}

/// The byte that two digits write.
fn byte_of(high: u16, low: u16) -> u8
    requires high { IsTrue (is_hex high) }
    requires low { IsTrue (is_hex low) }
    ensures { result ≡ byte_of high low }
{
    (digit(high) * 16 + digit(low)) as u8
}

/// The byte that the first two units write, and what follows them.
#[tactic(auto, unfolding(crate::specs::Digits::pair_at))]
fn pair(text: &[u16]) -> Result<(u8, &[u16]), RegFaultKind>
    ensures exact { Sees (λ p. (p.0, p.1.now)) result (pair_at text.now) }
    ensures shorter { IfOk result (λ p. length p.1.now < length text.now) }
{
    let [high, low, more @ ..] = text else {
        return Err(RegFaultKind::Line);
    };
    if !is_hex(*high) || !is_hex(*low) {
        return Err(RegFaultKind::Line);
    }
    Ok((byte_of(*high, *low), more))
}

/// What follows a comma; none at the end of the text.
#[tactic(auto, unfolding(crate::specs::Digits::behind_comma))]
fn behind_comma(text: &[u16]) -> Result<Option<&[u16]>, RegFaultKind>
    ensures exact { Sees (λ more. option_map (λ m. m.now) more) result (behind_comma text.now) }
    ensures shorter { IfOk result (λ more. IfSome more (λ m. length m.now < length text.now)) }
{
    match text {
        [] => Ok(None),
        [0x2c, more @ ..] => Ok(Some(more)),
        _ => Err(RegFaultKind::Line),
    }
}

fn pairs(alloc: Global, text: &[u16]) -> Result<Bytes, RegLineStop>
    ensures { Gives (λ b. b) result (pairs_of text.now) }
{
    let mut bytes = Bytes::new(alloc);
    let mut rest = text;
    'pairs: loop {
        let (byte, after) = pair(rest)?;
        bytes.push(byte)?;
        let more = behind_comma(after)?;
        let Some(more) = more else {
            return Ok(bytes);
        };
        rest = more;
    }
}

/// No byte, or bytes with commas between them.
pub fn bytes(alloc: Global, text: &[u16]) -> Result<Bytes, RegLineStop>
    ensures { Gives (λ b. b) result (bytes_of text.now) }
{
    if text.is_empty() {
        return Ok(Bytes::new(alloc));
    }
    pairs(alloc, text)
}
