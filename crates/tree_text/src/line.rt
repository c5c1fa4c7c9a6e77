//! One line of the text: a key or a value.

ghost use Rattle.std.specs.Prelude.{◌≡◌, ◌<◌, ◌+◌, [], ◌∷◌, ◌++◌, ◌/◌, ◌%◌, slice_index, codes, OnOk};
ghost use Rattle.std.specs.Fmt.{decimal};
ghost use Rattle.hex.specs.Hex.{encode_lower, lower_digits};
ghost use Rattle.nt_bytes.specs.Text.{is_printable};
ghost use Rattle.start_model.specs.Lines.{name_text};
ghost use Rattle.tree_text.specs.TreeText.{data_text, value_text};

use itoa::{Buffer, Integer};
use reg_tree::Value;
use std::alloc::AllocError;

/// The hexadecimal digits.
const HEX: &[u8; 16] = b"0123456789abcdef";

/// Puts a space and a number of one digit at the end.
fn push_digit(out: &mut Vec<u8>, digit: u8) -> Result<(), AllocError>
    requires { digit < 10 }
    ensures { OnOk result (out.new.items ≡ out.old.items ++ (32 ∷ (48 + digit) ∷ [])) }
{
    out.extend_from_slice(&[b' ', b'0' + digit])
}

/// Puts a space and the number at the end. Most numbers have one digit.
fn push_number(out: &mut Vec<u8>, number: u64) -> Result<(), AllocError>
    ensures { OnOk result (out.new.items ≡ out.old.items ++ codes " " ++ decimal number) }
{
    if number < 10 {
        return push_digit(out, number as u8);
    }
    let mut buffer = Buffer::new();
    out.push(b' ')?;
    out.extend_from_slice(buffer.format(number).as_bytes())
}

/// Whether the unit is printed as it is.
fn is_plain(unit: u16) -> bool
    ensures { result ≡ is_printable unit }
{
    (0x20..=0x7e).contains(&unit)
}

/// The high digit of a byte.
fn high_digit(byte: u8) -> u8
    ensures { result ≡ slice_index lower_digits (byte / 16) }
{
    HEX[usize::from(byte / 16)]
}

/// The low digit of a byte.
fn low_digit(byte: u8) -> u8
    ensures { result ≡ slice_index lower_digits (byte % 16) }
{
    HEX[usize::from(byte % 16)]
}

#[tactic(auto, unfolding(hex::specs::Hex::encode_with))]
fn push_few(out: &mut Vec<u8>, bytes: &[u8]) -> Result<(), AllocError>
    ensures { OnOk result (out.new.items ≡ out.old.items ++ encode_lower bytes.now) }
{
    let mut rest = bytes;
    'bytes: loop {
        let [byte, more @ ..] = rest else {
            return Ok(());
        };
        out.extend_from_slice(&[high_digit(*byte), low_digit(*byte)])?;
        rest = more;
    }
}

#[tactic(auto, unfolding(hex::specs::Hex::encode_with))]
fn push_four(out: &mut Vec<u8>, a: u8, b: u8, c: u8, d: u8) -> Result<(), AllocError>
    ensures { OnOk result (out.new.items ≡ out.old.items ++ encode_lower (a ∷ b ∷ c ∷ d ∷ [])) }
{
    out.extend_from_slice(&[
        high_digit(a),
        low_digit(a),
        high_digit(b),
        low_digit(b),
        high_digit(c),
        low_digit(c),
        high_digit(d),
        low_digit(d),
    ])
}

/// Four bytes at a time, since a call for each would take most of the time of a text.
#[tactic(auto, unfolding(hex::specs::Hex::encode_with))]
fn push_hex(out: &mut Vec<u8>, bytes: &[u8]) -> Result<(), AllocError>
    ensures { OnOk result (out.new.items ≡ out.old.items ++ encode_lower bytes.now) }
{
    let mut rest = bytes;
    'fours: loop {
        let [a, b, c, d, more @ ..] = rest else {
            return push_few(out, rest);
        };
        push_four(out, *a, *b, *c, *d)?;
        rest = more;
    }
}

fn push_data(out: &mut Vec<u8>, bytes: &[u8]) -> Result<(), AllocError>
    ensures { OnOk result (out.new.items ≡ out.old.items ++ data_text bytes.now) }
{
    if bytes.is_empty() {
        return Ok(());
    }
    out.push(b' ')?;
    push_hex(out, bytes)
}

/// Puts four units at the end.
#[tactic(auto, unfolding(start_model::specs::Lines::unit_text))]
fn push_four_units(out: &mut Vec<u8>, a: u16, b: u16, c: u16, d: u16) -> Result<(), AllocError>
    ensures { OnOk result (out.new.items ≡ out.old.items ++ name_text (a ∷ b ∷ c ∷ d ∷ [])) }
{
    if is_plain(a) && is_plain(b) && is_plain(c) && is_plain(d) {
        return out.extend_from_slice(&[a as u8, b as u8, c as u8, d as u8]);
    }
    report_text::boot_report::push_name(out, &[a, b, c, d])
}

fn push_name(out: &mut Vec<u8>, name: &[u16]) -> Result<(), AllocError>
    ensures { OnOk result (out.new.items ≡ out.old.items ++ name_text name.now) }
{
    let mut rest = name;
    'fours: loop {
        let [a, b, c, d, more @ ..] = rest else {
            return report_text::boot_report::push_name(out, rest);
        };
        push_four_units(out, *a, *b, *c, *d)?;
        rest = more;
    }
}

/// Puts the line of a key at the end.
pub fn push_head(out: &mut Vec<u8>, margin: &[u8], name: &[u16]) -> Result<(), AllocError>
    ensures { OnOk result (out.new.items ≡ out.old.items ++ margin.now ++ name_text name.now ++ codes "\n") }
{
    out.extend_from_slice(margin)?;
    push_name(out, name)?;
    out.push(b'\n')?;
    Ok(())
}

/// Puts the line of a value at the end.
#[tactic(auto, unfolding(crate::specs::TreeText::value_text))]
pub fn push_value(out: &mut Vec<u8>, margin: &[u8], value: &Value) -> Result<(), AllocError>
    ensures { OnOk result (out.new.items ≡ out.old.items ++ value_text margin.now value.now) }
{
    out.extend_from_slice(margin)?;
    out.extend_from_slice(b"= ")?;
    push_name(out, value.name.as_slice())?;
    push_number(out, u64::from(value.kind))?;
    push_number(out, value.bytes.len() as u64)?;
    push_data(out, value.bytes.as_slice())?;
    out.push(b'\n')?;
    Ok(())
}
