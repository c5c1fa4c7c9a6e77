//! The data that a `set` line writes.

ghost use Rattle.std.specs.Prelude.{◌≡◌, ◌++◌, ◌<◌, map, OnOk, IfOk};
ghost use Rattle.std.specs.List.{list_all};
ghost use Rattle.std.specs.Char.{is_ascii_hexdigit};
ghost use Rattle.boot_script.specs.boot_script.Words.{Gives};
ghost use Rattle.boot_script.specs.boot_script.Values.{text_bytes, texts_bytes, hex_value, hex_bytes, is_hex, binary_of, string_of, dword_of, data_of};

use crate::boot_script::numerals::number;
use crate::boot_script::stop::{LineStop, ScriptFaultKind};
use nt_bytes::Bytes;
use std::alloc::{AllocError, Global};

/// Adds the text in UTF-16 and a zero unit.
fn push_text(out: &mut Bytes, text: &[u8]) -> Result<(), AllocError>
    ensures { OnOk result (out.new ≡ out.old ++ text_bytes text.now) }
{
    for c in text {
        out.push(*c)?;
        out.push(0)?;
    }
    out.push(0)?;
    out.push(0)
}

fn push_texts(out: &mut Bytes, texts: &[&[u8]]) -> Result<(), AllocError>
    ensures { OnOk result (out.new ≡ out.old ++ texts_bytes (map (λ w. w.now) texts.now)) }
{
    for text in texts {
        push_text(out, text)?;
    }
    out.push(0)?;
    out.push(0)
}

/// The value of a hexadecimal digit of either case; 0 of another byte.
fn hex_value_of(c: u8) -> u8
    ensures value { result ≡ hex_value c }
    ensures small { result < 16 }
{
    match c {
        b'0'..=b'9' => c - b'0',
        b'A'..=b'F' => c - b'A' + 10,
        b'a'..=b'f' => c - b'a' + 10,
        _ => 0,
    }
}

fn all_hex(word: &[u8]) -> bool
    ensures { result ≡ list_all is_ascii_hexdigit word.now }
{
    word.iter().all(|c| c.is_ascii_hexdigit())
}

#[tactic(auto, unfolding(crate::specs::boot_script::Values::is_hex))]
fn is_hex_word(word: &[u8]) -> bool
    ensures { result ≡ is_hex word.now }
{
    word.len() % 2 == 0 && all_hex(word)
}

/// A byte for each two digits.
fn bytes_in(alloc: Global, word: &[u8]) -> Result<Bytes, AllocError>
    ensures { IfOk result (λ b. b ≡ hex_bytes word.now) }
{
    let mut bytes = Bytes::new(alloc);
    let mut rest = word;
    while let [high, low, more @ ..] = rest {
        bytes.push(hex_value_of(*high) * 16 + hex_value_of(*low))?;
        rest = more;
    }
    Ok(bytes)
}

#[tactic(auto, unfolding(crate::specs::boot_script::Values::binary_of))]
fn binary(alloc: Global, words: &[&[u8]]) -> Result<(u32, Bytes), LineStop>
    ensures { Gives (λ d. (d.0, d.1)) result (binary_of (map (λ w. w.now) words.now)) }
{
    let [word] = words else {
        return Err(LineStop::Kind(ScriptFaultKind::Word));
    };
    if !is_hex_word(word) {
        return Err(LineStop::Kind(ScriptFaultKind::Number));
    }
    Ok((3, bytes_in(alloc, word)?))
}

#[tactic(auto, unfolding(crate::specs::boot_script::Values::string_of))]
fn string(alloc: Global, words: &[&[u8]]) -> Result<(u32, Bytes), LineStop>
    ensures { Gives (λ d. (d.0, d.1)) result (string_of (map (λ w. w.now) words.now)) }
{
    let [word] = words else {
        return Err(LineStop::Kind(ScriptFaultKind::Word));
    };
    let mut bytes = Bytes::new(alloc);
    push_text(&mut bytes, word)?;
    Ok((1, bytes))
}

#[tactic(auto, unfolding(crate::specs::boot_script::Values::dword_of))]
fn dword(alloc: Global, words: &[&[u8]]) -> Result<(u32, Bytes), LineStop>
    ensures { Gives (λ d. (d.0, d.1)) result (dword_of (map (λ w. w.now) words.now)) }
{
    let [word] = words else {
        return Err(LineStop::Kind(ScriptFaultKind::Word));
    };
    let n = number(0, word)?;
    let mut bytes = Bytes::new(alloc);
    bytes.put_u32(n)?;
    Ok((4, bytes))
}

/// The type and the bytes of the value that the words after its name give.
#[tactic(auto, unfolding(crate::specs::boot_script::Values::data_of))]
pub fn data(alloc: Global, kind: &[u8], words: &[&[u8]]) -> Result<(u32, Bytes), LineStop>
    ensures { Gives (λ d. (d.0, d.1)) result (data_of kind.now (map (λ w. w.now) words.now)) }
{
    if kind == b"dword".as_slice() {
        return dword(alloc, words);
    }
    if kind == b"sz".as_slice() {
        return string(alloc, words);
    }
    if kind == b"multi".as_slice() {
        let mut bytes = Bytes::new(alloc);
        push_texts(&mut bytes, words)?;
        return Ok((7, bytes));
    }
    if kind == b"binary".as_slice() {
        return binary(alloc, words);
    }
    Err(LineStop::Kind(ScriptFaultKind::Word))
}
