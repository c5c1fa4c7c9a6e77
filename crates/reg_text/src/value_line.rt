//! The line of a value.

ghost use Rattle.std.specs.Prelude.{◌≡◌, [], ◌++◌, OnOk, IfOk};
ghost use Rattle.nt_bytes.specs.Reading.{Sees};
ghost use Rattle.reg_text.specs.Gives.{Finds, Gives};
ghost use Rattle.reg_text.specs.Writing.{unit_bytes};
ghost use Rattle.reg_text.specs.Items.{comma_ended, continued, named, name_at, string_bytes, string_ended, string_item, dword_item, bytes_item, kind_ended, kind_in, wide_kind, kind_at, hex_item, number_item, data_item, value_item};

use crate::digits::{all_hex, bytes, hex_count, hex_number};
use crate::item::{Begun, LineItem};
use crate::quotes::quoted;
use crate::stop::{RegFaultKind, RegLineStop};
use crate::units::behind;
use nt_bytes::{Bytes, Units};
use std::alloc::{AllocError, Global};

/// The name with what follows the `=` after it.
#[tactic(auto, unfolding(crate::specs::Items::named))]
fn named(name: Units, rest: &[u16]) -> Result<(Units, &[u16]), RegLineStop>
    ensures { Gives (λ n. (n.0, n.1.now)) result (named name rest.now) }
{
    match rest {
        [0x3d, data @ ..] => Ok((name, data)),
        _ => Err(RegLineStop::Kind(RegFaultKind::Line)),
    }
}

/// The name at the front of a line, and what follows the `=` after it.
#[tactic(auto, unfolding(crate::specs::Items::name_at))]
fn name(alloc: Global, line: &[u16]) -> Result<(Units, &[u16]), RegLineStop>
    ensures { Gives (λ n. (n.0, n.1.now)) result (name_at line.now) }
{
    match line {
        [0x40, rest @ ..] => named(Units::new(alloc), rest),
        [0x22, text @ ..] => {
            let (name, rest) = quoted(alloc, text)?;
            named(name, rest)
        }
        _ => Err(RegLineStop::Kind(RegFaultKind::Line)),
    }
}

fn push_unit(out: &mut Bytes, unit: u16) -> Result<(), AllocError>
    ensures { OnOk result (out.new ≡ out.old ++ unit_bytes unit) }
{
    out.push((unit % 256) as u8)?;
    out.push((unit / 256) as u8)
}

/// The text in UTF-16, and a zero unit.
fn string_bytes(alloc: Global, text: &[u16]) -> Result<Bytes, AllocError>
    ensures { IfOk result (λ b. b ≡ string_bytes text.now) }
{
    let mut bytes = Bytes::new(alloc);
    for unit in text {
        push_unit(&mut bytes, *unit)?;
    }
    bytes.push(0)?;
    bytes.push(0)?;
    Ok(bytes)
}

/// A string, after whose closing quote nothing may stand.
#[tactic(auto, unfolding(crate::specs::Items::string_ended))]
fn string_ended(
    alloc: Global,
    name: Units,
    text: &[u16],
    rest: &[u16],
) -> Result<LineItem, RegLineStop>
    ensures { Gives (λ i. i) result (string_ended name text.now rest.now) }
{
    if !rest.is_empty() {
        return Err(RegLineStop::Kind(RegFaultKind::Line));
    }
    let bytes = string_bytes(alloc, text)?;
    Ok(LineItem::Named {
        name,
        kind: 1,
        bytes,
    })
}

/// A text in quotes, after its first quote.
#[tactic(auto, unfolding(crate::specs::Items::string_item))]
fn string_item(alloc: Global, name: Units, text: &[u16]) -> Result<LineItem, RegLineStop>
    ensures { Gives (λ i. i) result (string_item name text.now) }
{
    let (text, rest) = quoted(alloc, text)?;
    string_ended(alloc, name, text.as_slice(), rest)
}

/// Eight digits.
#[tactic(auto, unfolding(crate::specs::Items::dword_item))]
fn dword_item(alloc: Global, name: Units, text: &[u16]) -> Result<LineItem, RegLineStop>
    ensures { Gives (λ i. i) result (dword_item name text.now) }
{
    if text.len() != 8 || !all_hex(text) {
        return Err(RegLineStop::Kind(RegFaultKind::Line));
    }
    let mut bytes = Bytes::new(alloc);
    bytes.put_u32(hex_number(text))?;
    Ok(LineItem::Named {
        name,
        kind: 4,
        bytes,
    })
}

/// The text, where a comma is at its end.
fn comma_ended(text: &[u16]) -> Option<&[u16]>
    ensures { Finds (λ t. t.now) result (comma_ended text.now) }
{
    match text {
        [.., 0x2c] => Some(text),
        _ => None,
    }
}

/// What the line adds to bytes that go on in the next line.
fn continued(line: &[u16]) -> Option<&[u16]>
    ensures { Finds (λ t. t.now) result (continued line.now) }
{
    match line {
        [piece @ .., 0x5c] => comma_ended(piece),
        _ => None,
    }
}

fn append(text: &mut Units, more: &[u16]) -> Result<(), AllocError>
    ensures { OnOk result (text.new ≡ text.old ++ more.now) }
{
    for unit in more {
        text.push(*unit)?;
    }
    Ok(())
}

/// Bytes of a value, of which this text was written in earlier lines.
#[tactic(auto, unfolding(crate::specs::Items::bytes_item))]
pub fn bytes_item(
    alloc: Global,
    name: Units,
    kind: u32,
    mut text: Units,
    line: &[u16],
) -> Result<LineItem, RegLineStop>
    ensures { Gives (λ i. i) result (bytes_item name kind text line.now) }
{
    match continued(line) {
        Some(more) => {
            append(&mut text, more)?;
            Ok(LineItem::GoesOn {
                begun: Begun { name, kind, text },
            })
        }
        None => {
            append(&mut text, line)?;
            let bytes = bytes(alloc, text.as_slice())?;
            Ok(LineItem::Named { name, kind, bytes })
        }
    }
}

/// The type, where `):` follows its digits, and what follows that.
#[tactic(auto, unfolding(crate::specs::Items::kind_ended))]
fn kind_ended(kind: u32, rest: &[u16]) -> Result<(u32, &[u16]), RegFaultKind>
    ensures { Sees (λ k. (k.0, k.1.now)) result (kind_ended kind rest.now) }
{
    match behind(b"):", rest) {
        Some(bytes) => Ok((kind, bytes)),
        None => Err(RegFaultKind::Line),
    }
}

/// The type after `hex(`, with one to eight digits, and what follows it.
#[tactic(auto, unfolding(crate::specs::Items::kind_in))]
fn kind_in(text: &[u16]) -> Result<(u32, &[u16]), RegFaultKind>
    ensures { Sees (λ k. (k.0, k.1.now)) result (kind_in text.now) }
{
    let count = hex_count(text);
    if count == 0 || 8 < count {
        return Err(RegFaultKind::Line);
    }
    let (digits, rest) = text.split_at(count);
    kind_ended(hex_number(digits), rest)
}

fn wide_kind(text: &[u16]) -> Result<(u32, &[u16]), RegFaultKind>
    ensures { Sees (λ k. (k.0, k.1.now)) result (wide_kind text.now) }
{
    match behind(b"hex(", text) {
        Some(rest) => kind_in(rest),
        None => Err(RegFaultKind::Line),
    }
}

/// The type of bytes, and what follows it.
#[tactic(auto, unfolding(crate::specs::Items::kind_at))]
fn kind(text: &[u16]) -> Result<(u32, &[u16]), RegFaultKind>
    ensures { Sees (λ k. (k.0, k.1.now)) result (kind_at text.now) }
{
    match behind(b"hex:", text) {
        Some(rest) => Ok((3, rest)),
        None => wide_kind(text),
    }
}

#[tactic(auto, unfolding(crate::specs::Items::hex_item))]
fn hex_item(alloc: Global, name: Units, text: &[u16]) -> Result<LineItem, RegLineStop>
    ensures { Gives (λ i. i) result (hex_item name text.now) }
{
    let (kind, rest) = kind(text)?;
    bytes_item(alloc, name, kind, Units::new(alloc), rest)
}

/// A number or bytes.
#[tactic(auto, unfolding(crate::specs::Items::number_item))]
fn number_item(alloc: Global, name: Units, text: &[u16]) -> Result<LineItem, RegLineStop>
    ensures { Gives (λ i. i) result (number_item name text.now) }
{
    match behind(b"dword:", text) {
        Some(digits) => dword_item(alloc, name, digits),
        None => hex_item(alloc, name, text),
    }
}

/// The data after the `=`.
#[tactic(auto, unfolding(crate::specs::Items::data_item))]
fn data_item(alloc: Global, name: Units, text: &[u16]) -> Result<LineItem, RegLineStop>
    ensures { Gives (λ i. i) result (data_item name text.now) }
{
    match text {
        [] => Err(RegLineStop::Kind(RegFaultKind::Line)),
        [0x22, text @ ..] => string_item(alloc, name, text),
        [0x2d] => Ok(LineItem::NoValue { name }),
        _ => number_item(alloc, name, text),
    }
}

/// The line of a value.
#[tactic(auto, unfolding(crate::specs::Items::value_item))]
pub fn value_item(alloc: Global, line: &[u16]) -> Result<LineItem, RegLineStop>
    ensures { Gives (λ i. i) result (value_item line.now) }
{
    let (name, data) = name(alloc, line)?;
    data_item(alloc, name, data)
}
