//! Reading a path from left to right.

ghost use Rattle.std.specs.Prelude.{◌≡◌, ◌≤◌, ◌^◌, true, length, take, Err, IfOk};
ghost use Rattle.boot_ini.specs.declared.arc_path.arc.ArcFault.{ArcFault as Fault};
ghost use Rattle.boot_ini.specs.arc_path.Spelling.{IsPath};
ghost use Rattle.std.specs.List.{All, prefix_len};
ghost use Rattle.std.specs.Str.Parse.{digits_value};
ghost use Rattle.std.specs.Str.{str_eq_ignore_ascii_case};
ghost use Rattle.std.specs.Char.{is_digit};
ghost use Rattle.boot_ini.specs.arc_path.Reading.{word_at, number_at, item_at, kind_at, radix_of, most_of, partition_at, numbers_at, directory_at, parts_at, arc_of, Gives, without_last_backslashes};
ghost use Rattle.nt_bytes.specs.Text.{is_printable};
ghost use Rattle.nt_bytes.specs.Reading.{Sees};

use crate::arc_path::arc::{Arc, ArcFault, ArcFaultKind, ArcKind, ArcStop};
use nt_bytes::Bytes;
use std::alloc::Global;

/// A fault, and how many bytes of the text are left where it stands.
#[derive(Clone, Copy, Debug)]
struct Early {
    kind: ArcFaultKind,
    left: usize,
}

/// A path without its directory.
#[derive(Clone, Copy, Debug)]
struct Numbers {
    kind: ArcKind,
    controller: u32,
    disk: u32,
    rdisk: u32,
    partition: u32,
}

fn begins_with(text: &[u8], word: &[u8]) -> bool
    ensures { result ≡ str_eq_ignore_ascii_case (take (length word.now) text.now) word.now }
{
    word.len() <= text.len() && text[..word.len()].eq_ignore_ascii_case(word)
}

#[tactic(auto, unfolding(crate::specs::arc_path::Reading::word_at))]
fn word<'a>(word: &[u8], text: &'a [u8]) -> Result<&'a [u8], Early>
    ensures { Sees (λ rest. rest.now) result (word_at word.now text.now) }
{
    if !begins_with(text, word) {
        return Err(Early {
            kind: ArcFaultKind::Word,
            left: text.len(),
        });
    }
    Ok(&text[word.len()..])
}

fn digit_count(radix: u32, text: &[u8]) -> usize
    requires low { 2 ≤ radix }
    requires high { radix ≤ 36 }
    ensures { result ≡ prefix_len (λ c. is_digit c radix) text.now }
{
    let mut count = 0;
    for c in text {
        if !(*c as char).is_digit(radix) {
            return count;
        }
        count += 1;
    }
    count
}

/// The number that the digits write.
fn value_of(radix: u32, digits: &[u8]) -> u32
    requires low { 2 ≤ radix }
    requires high { radix ≤ 16 }
    requires all { All (λ c. is_digit c radix ≡ true) digits.now }
    requires short { radix ^ length digits.now ≤ 2 ^ 32 }
    ensures { result ≡ digits_value radix digits.now }
{
    let mut value: u64 = 0;
    for c in digits {
        value = value * u64::from(radix) + u64::from((*c as char).to_digit(radix).unwrap_or(0));
    }
    value as u32
}

#[tactic(auto, unfolding(crate::specs::arc_path::Reading::number_at))]
fn number(radix: u32, most: usize, text: &[u8]) -> Result<(u32, &[u8]), Early>
    requires low { 2 ≤ radix }
    requires high { radix ≤ 16 }
    requires short { radix ^ most ≤ 2 ^ 32 }
    ensures { Sees (λ x. (x.0, x.1.now)) result (number_at radix most text.now) }
{
    let count = digit_count(radix, text);
    if count == 0 || most < count {
        return Err(Early {
            kind: ArcFaultKind::Number,
            left: text.len(),
        });
    }
    let (digits, rest) = text.split_at(count);
    Ok((value_of(radix, digits), rest))
}

#[tactic(auto, unfolding(crate::specs::arc_path::Reading::item_at))]
fn item<'a>(name: &[u8], text: &'a [u8]) -> Result<(u32, &'a [u8]), Early>
    ensures { Sees (λ x. (x.0, x.1.now)) result (item_at name.now text.now) }
{
    let inside = word(name, text)?;
    let (number, rest) = number(10, 9, inside)?;
    let rest = word(b")", rest)?;
    Ok((number, rest))
}

#[tactic(auto, unfolding(crate::specs::arc_path::Reading::kind_at))]
fn first_word(text: &[u8]) -> Result<(ArcKind, &[u8]), Early>
    ensures { Sees (λ x. (x.0, x.1.now)) result (kind_at text.now) }
{
    if begins_with(text, b"multi(") {
        return Ok((ArcKind::Multi, &text[6..]));
    }
    if begins_with(text, b"scsi(") {
        return Ok((ArcKind::Scsi, &text[5..]));
    }
    if begins_with(text, b"signature(") {
        return Ok((ArcKind::Signature, &text[10..]));
    }
    Err(Early {
        kind: ArcFaultKind::Kind,
        left: text.len(),
    })
}

fn controller(kind: ArcKind, text: &[u8]) -> Result<(u32, &[u8]), Early>
    ensures { Sees (λ x. (x.0, x.1.now)) result (number_at (radix_of kind) (most_of kind) text.now) }
{
    match kind {
        ArcKind::Multi | ArcKind::Scsi => number(10, 9, text),
        ArcKind::Signature => number(16, 8, text),
    }
}

#[tactic(auto, unfolding(crate::specs::arc_path::Reading::partition_at))]
fn partition(text: &[u8]) -> Result<(u32, &[u8]), Early>
    ensures { Sees (λ x. (x.0, x.1.now)) result (partition_at text.now) }
{
    let inside = word(b"partition(", text)?;
    let (number, rest) = number(10, 9, inside)?;
    if number == 0 {
        return Err(Early {
            kind: ArcFaultKind::Partition,
            left: inside.len(),
        });
    }
    let rest = word(b")", rest)?;
    Ok((number, rest))
}

#[tactic(auto, unfolding(crate::specs::arc_path::Reading::numbers_at))]
fn all_numbers(text: &[u8]) -> Result<(Numbers, &[u8]), Early>
    ensures { Sees (λ x. (x.0, x.1.now)) result (numbers_at text.now) }
{
    let (kind, rest) = first_word(text)?;
    let (controller, rest) = controller(kind, rest)?;
    let rest = word(b")", rest)?;
    let (disk, rest) = item(b"disk(", rest)?;
    let (rdisk, rest) = item(b"rdisk(", rest)?;
    let (partition, rest) = partition(rest)?;
    Ok((
        Numbers {
            kind,
            controller,
            disk,
            rdisk,
            partition,
        },
        rest,
    ))
}

fn printable_count(text: &[u8]) -> usize
    ensures { result ≡ prefix_len is_printable text.now }
{
    let mut count = 0;
    for c in text {
        if !(0x20..=0x7e).contains(c) {
            return count;
        }
        count += 1;
    }
    count
}

fn trimmed(text: &[u8]) -> &[u8]
    ensures { result.now ≡ without_last_backslashes text.now }
{
    let mut rest = text;
    while let [front @ .., b'\\'] = rest {
        rest = front;
    }
    rest
}

#[tactic(auto, unfolding(crate::specs::arc_path::Reading::directory_at))]
fn directory(text: &[u8]) -> Result<&[u8], Early>
    ensures { Sees (λ dir. dir.now) result (directory_at text.now) }
{
    let [first, rest @ ..] = text else {
        return Ok(text);
    };
    if *first != b'\\' {
        return Err(Early {
            kind: ArcFaultKind::Tail,
            left: text.len(),
        });
    }
    let count = printable_count(rest);
    if count < rest.len() {
        return Err(Early {
            kind: ArcFaultKind::Tail,
            left: rest.len() - count,
        });
    }
    Ok(trimmed(rest))
}

#[tactic(auto, unfolding(crate::specs::arc_path::Reading::parts_at))]
fn parts(text: &[u8]) -> Result<(Numbers, &[u8]), Early>
    ensures { Sees (λ x. (x.0, x.1.now)) result (parts_at text.now) }
{
    let (numbers, rest) = all_numbers(text)?;
    let dir = directory(rest)?;
    Ok((numbers, dir))
}

/// The path that the text is, or its first fault from the left. Words are read in either case.
#[tactic(auto, unfolding(crate::specs::arc_path::Reading::arc_of))]
pub fn read_arc(alloc: Global, text: &[u8]) -> Result<Arc, ArcStop>
    ensures exact { Gives result (arc_of text.now) }
    ensures fault { (f : Fault) → arc_of text.now ≡ Err f → result ≡ Err (ArcStop.Fault f) }
    ensures path { IfOk result IsPath }
{
    match parts(text) {
        Ok((numbers, dir)) => Ok(Arc {
            kind: numbers.kind,
            controller: numbers.controller,
            disk: numbers.disk,
            rdisk: numbers.rdisk,
            partition: numbers.partition,
            dir: Bytes::from_slice(alloc, dir)?,
        }),
        Err(early) => {
            let at = text.len().saturating_sub(early.left).min(u32::MAX as usize) as u32;
            Err(ArcStop::Fault(ArcFault {
                kind: early.kind,
                at,
            }))
        }
    }
}
