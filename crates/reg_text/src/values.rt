//! The line of a value.

ghost use Rattle.std.specs.Prelude.{◌≡◌, [], ◌∷◌, ◌++◌, ◌+◌, ◌*◌, ◌/◌, ◌%◌, ◌≤◌, if◌then◌else◌, false, length, codes, OnOk, IfOk};
ghost use Rattle.std.specs.Vec.{vec_len, vec_capacity};
ghost use Rattle.std.specs.List.{flat_map};
ghost use Rattle.std.specs.Fmt.{digits, digit_glyph};
ghost use Rattle.std.specs.Int.{w32, from_le_bytes};
ghost use Rattle.nt_bytes.specs.Text.{sz_of};
ghost use Rattle.reg_text.specs.Writing.{quoted_unit, quoted, name_text, byte_digits, bytes_text, number_digits, is_string, binary_text, data_text, value_text, breaks};

use crate::names::breaks;
use nt_bytes::{hex_digit, u32_at};
use reg_tree::Value;
use std::alloc::{AllocError, Global};

/// Puts characters after, a unit for each byte.
pub fn push_ascii(out: &mut Vec<u16>, text: &[u8]) -> Result<(), AllocError>
    ensures { OnOk result (out.new.items ≡ out.old.items ++ text.now) }
{
    out.reserve(text.len())?;
    for c in text {
        out.push_reserved(u16::from(*c));
    }
    Ok(())
}

/// There is room for the unit and a backslash before it.
#[tactic(auto, unfolding(crate::specs::Writing::quoted_unit))]
fn put_quoted_unit(out: &mut Vec<u16>, unit: u16)
    requires { vec_len out.old + 2 ≤ vec_capacity out.old }
    ensures items { out.new.items ≡ out.old.items ++ quoted_unit unit }
    ensures len { vec_len out.new ≤ vec_len out.old + 2 }
    ensures capacity { vec_capacity out.new ≡ vec_capacity out.old }
{
    if unit == 0x5c || unit == 0x22 {
        out.push_reserved(0x5c);
    }
    out.push_reserved(unit);
}

fn push_units(out: &mut Vec<u16>, text: &[u16]) -> Result<(), AllocError>
    ensures { OnOk result (out.new.items ≡ out.old.items ++ flat_map quoted_unit text.now) }
{
    out.reserve(2 * text.len())?;
    for unit in text {
        put_quoted_unit(out, *unit);
    }
    Ok(())
}

fn push_quoted(out: &mut Vec<u16>, text: &[u16]) -> Result<(), AllocError>
    ensures { OnOk result (out.new.items ≡ out.old.items ++ quoted text.now) }
{
    push_ascii(out, b"\"")?;
    push_units(out, text)?;
    push_ascii(out, b"\"")
}

fn push_name(out: &mut Vec<u16>, name: &[u16]) -> Result<(), AllocError>
    ensures { OnOk result (out.new.items ≡ out.old.items ++ name_text name.now) }
{
    if name.is_empty() {
        return push_ascii(out, b"@");
    }
    push_quoted(out, name)
}

/// The high digit of a byte.
fn high_digit(byte: u8) -> u16
    ensures { result ≡ digit_glyph false (byte / 16) }
{
    u16::from(hex_digit(u32::from(byte) / 16))
}

/// The low digit of a byte.
fn low_digit(byte: u8) -> u16
    ensures { result ≡ digit_glyph false (byte % 16) }
{
    u16::from(hex_digit(u32::from(byte) % 16))
}

fn push_byte(out: &mut Vec<u16>, byte: u8) -> Result<(), AllocError>
    ensures { OnOk result (out.new.items ≡ out.old.items ++ byte_digits byte) }
{
    out.extend_from_slice(&[high_digit(byte), low_digit(byte)])
}

fn push_next_byte(out: &mut Vec<u16>, byte: u8) -> Result<(), AllocError>
    ensures { OnOk result (out.new.items ≡ out.old.items ++ codes "," ++ byte_digits byte) }
{
    out.extend_from_slice(&[0x2c, high_digit(byte), low_digit(byte)])
}

fn push_few_bytes(out: &mut Vec<u16>, bytes: &[u8]) -> Result<(), AllocError>
    ensures { OnOk result (out.new.items ≡ out.old.items ++ flat_map (λ b. codes "," ++ byte_digits b) bytes.now) }
{
    for byte in bytes {
        push_next_byte(out, *byte)?;
    }
    Ok(())
}

fn push_four_bytes(out: &mut Vec<u16>, a: u8, b: u8, c: u8, d: u8) -> Result<(), AllocError>
    ensures { OnOk result (out.new.items ≡ out.old.items ++ flat_map (λ b. codes "," ++ byte_digits b) (a ∷ b ∷ c ∷ d ∷ [])) }
{
    out.extend_from_slice(&[
        0x2c,
        high_digit(a),
        low_digit(a),
        0x2c,
        high_digit(b),
        low_digit(b),
        0x2c,
        high_digit(c),
        low_digit(c),
        0x2c,
        high_digit(d),
        low_digit(d),
    ])
}

/// Four bytes at a time, since a call for each digit would take most of the time of a text.
fn push_more_bytes(out: &mut Vec<u16>, bytes: &[u8]) -> Result<(), AllocError>
    ensures { OnOk result (out.new.items ≡ out.old.items ++ flat_map (λ b. codes "," ++ byte_digits b) bytes.now) }
{
    let mut rest = bytes;
    'fours: loop {
        let [a, b, c, d, more @ ..] = rest else {
            return push_few_bytes(out, rest);
        };
        push_four_bytes(out, *a, *b, *c, *d)?;
        rest = more;
    }
}

fn push_bytes(out: &mut Vec<u16>, bytes: &[u8]) -> Result<(), AllocError>
    ensures { OnOk result (out.new.items ≡ out.old.items ++ bytes_text bytes.now) }
{
    match bytes {
        [] => Ok(()),
        [first, more @ ..] => {
            push_byte(out, *first)?;
            push_more_bytes(out, more)
        }
    }
}

fn push_two_bytes(out: &mut Vec<u16>, high: u8, low: u8) -> Result<(), AllocError>
    ensures { OnOk result (out.new.items ≡ out.old.items ++ byte_digits high ++ byte_digits low) }
{
    out.extend_from_slice(&[
        high_digit(high),
        low_digit(high),
        high_digit(low),
        low_digit(low),
    ])
}

fn push_number(out: &mut Vec<u16>, number: u32) -> Result<(), AllocError>
    ensures { OnOk result (out.new.items ≡ out.old.items ++ number_digits number) }
{
    push_two_bytes(out, (number / 16777216) as u8, (number / 65536 % 256) as u8)?;
    push_two_bytes(out, (number / 256 % 256) as u8, (number % 256) as u8)
}

/// The type in hexadecimal digits.
fn push_kind(alloc: Global, out: &mut Vec<u16>, kind: u32) -> Result<(), AllocError>
    ensures { OnOk result (out.new.items ≡ out.old.items ++ digits 16 false kind) }
{
    let text = format!(in alloc; "{kind:x}")?;
    push_ascii(out, text.as_bytes())
}

fn push_binary(alloc: Global, out: &mut Vec<u16>, kind: u32, bytes: &[u8]) -> Result<(), AllocError>
    ensures { OnOk result (out.new.items ≡ out.old.items ++ binary_text kind bytes.now) }
{
    if kind == 3 {
        push_ascii(out, b"hex:")?;
        return push_bytes(out, bytes);
    }
    push_ascii(out, b"hex(")?;
    push_kind(alloc, out, kind)?;
    push_ascii(out, b"):")?;
    push_bytes(out, bytes)
}

/// Whether the data are this string, which is in one line, and one zero unit after it.
#[tactic(auto, unfolding(crate::specs::Writing::is_string))]
fn is_plain_string(bytes: &[u8], text: &[u16]) -> bool
    requires text { text.now ≡ sz_of bytes.now }
    requires half { 2 * length text.now ≤ length bytes.now }
    ensures { result ≡ is_string 1 bytes.now }
{
    bytes.len() - 2 * text.len() == 2 && !breaks(text)
}

/// What `sz` says of the data, in room that is reserved once.
fn string_in(alloc: Global, bytes: &[u8]) -> Result<Vec<u16>, AllocError>
    ensures text { IfOk result (λ t. t.items ≡ sz_of bytes.now) }
    ensures half { IfOk result (λ t. 2 * vec_len t ≤ length bytes.now) }
{
    let mut text = Vec::new(alloc);
    text.reserve(bytes.len() / 2)?;
    let mut rest = bytes;
    'units: loop {
        let [low, high, more @ ..] = rest else {
            return Ok(text);
        };
        let unit = u16::from_le_bytes([*low, *high]);
        if unit == 0 {
            return Ok(text);
        }
        text.push_reserved(unit);
        rest = more;
    }
}

fn push_string(alloc: Global, out: &mut Vec<u16>, bytes: &[u8]) -> Result<(), AllocError>
    ensures { OnOk result (out.new.items ≡ out.old.items ++ (if is_string 1 bytes.now then quoted (sz_of bytes.now) else binary_text 1 bytes.now)) }
{
    let text = string_in(alloc, bytes)?;
    if is_plain_string(bytes, text.as_slice()) {
        return push_quoted(out, text.as_slice());
    }
    push_binary(alloc, out, 1, bytes)
}

/// The number that four bytes are.
fn number_in(bytes: &[u8]) -> u32
    requires { length bytes.now ≡ 4 }
    ensures { result ≡ from_le_bytes w32 bytes.now }
{
    u32_at(bytes, 0)
}

fn push_dword(out: &mut Vec<u16>, number: u32) -> Result<(), AllocError>
    ensures { OnOk result (out.new.items ≡ out.old.items ++ (codes "dword:" ++ number_digits number)) }
{
    push_ascii(out, b"dword:")?;
    push_number(out, number)
}

#[tactic(auto, unfolding(crate::specs::Writing::data_text, crate::specs::Writing::is_string))]
fn push_data(alloc: Global, out: &mut Vec<u16>, kind: u32, bytes: &[u8]) -> Result<(), AllocError>
    ensures { OnOk result (out.new.items ≡ out.old.items ++ data_text kind bytes.now) }
{
    if kind == 4 && bytes.len() == 4 {
        return push_dword(out, number_in(bytes));
    }
    if kind == 1 {
        return push_string(alloc, out, bytes);
    }
    push_binary(alloc, out, kind, bytes)
}

/// Puts the line of a value at the end.
#[tactic(auto, unfolding(crate::specs::Writing::value_text))]
pub fn push_value(alloc: Global, out: &mut Vec<u16>, value: &Value) -> Result<(), AllocError>
    ensures { OnOk result (out.new.items ≡ out.old.items ++ value_text value.now) }
{
    push_name(out, value.name())?;
    push_ascii(out, b"=")?;
    push_data(alloc, out, value.kind, value.data())?;
    push_ascii(out, b"\r\n")
}
