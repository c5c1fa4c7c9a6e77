//! What a printed line says of a fault.

ghost use Rattle.std.specs.Prelude.{◌≡◌, map, option_map};
ghost use Rattle.refusal_reason.specs.reason_lines.Heard.{boot_ini_of, fault_heard, heard_of, hive_heard, line_heard, of_hive, of_other, of_reg, of_script};
ghost use Rattle.refusal_reason.specs.reason_lines.Kinds.{reason_in, part_reason, script_rows, boot_ini_rows, reg_rows};
ghost use Rattle.refusal_reason.specs.reason_lines.Texts.{after_word, first_word, number_of};
ghost use Rattle.refusal_reason.specs.reason_lines.Seen.{found_seen, heard_seen, row_seen};

use crate::reason_lines::kinds::{
    Found, Part, Row, boot_ini_rows, part_reason, reason_in, reg_rows, script_rows,
};
use crate::reason_lines::words::{is_word, number_in, split};

/// What a printed line says of a fault: its reason, and the number of a line or a byte.
#[derive(Clone, Copy)]
pub enum Heard {
    /// It is the line of no fault.
    Nothing,
    /// Of a script, or of the commands of `control`.
    Script(&'static str, u32),
    /// Of boot.ini.
    BootIni(&'static str),
    /// Of a registry text.
    Reg(&'static str, u32),
    /// Of a hive and its log.
    Hive(Part, &'static str, u32),
    /// Of the second hive of `diff`.
    Other(Part, &'static str, u32),
}

/// The number of a line and the reason of `LINE KIND`, where there are both.
fn line_in(rows: &'static [Row], text: &[u8]) -> (Option<u32>, Option<&'static str>)
    ensures line { result.0 ≡ number_of (first_word text.now) }
    ensures reason { option_map (λ t. t.now) result.1 ≡ reason_in (map row_seen rows.now) (first_word (after_word text.now)) }
{
    let (line, rest) = split(text);
    let (kind, _) = split(rest);
    (number_in(line), reason_in(rows, kind))
}

fn script_in(text: &[u8]) -> Heard
    ensures { heard_seen result ≡ line_heard of_script script_rows text.now }
{
    match line_in(script_rows(), text) {
        (Some(line), Some(reason)) => Heard::Script(reason, line),
        _ => Heard::Nothing,
    }
}

fn reg_in(text: &[u8]) -> Heard
    ensures { heard_seen result ≡ line_heard of_reg reg_rows text.now }
{
    match line_in(reg_rows(), text) {
        (Some(line), Some(reason)) => Heard::Reg(reason, line),
        _ => Heard::Nothing,
    }
}

fn boot_ini_in(text: &[u8]) -> Heard
    ensures { heard_seen result ≡ boot_ini_of (reason_in boot_ini_rows (first_word text.now)) }
{
    match reason_in(boot_ini_rows(), split(text).0) {
        Some(reason) => Heard::BootIni(reason),
        None => Heard::Nothing,
    }
}

/// The part, the reason and the offset of `KIND at OFFSET`.
fn place_in(text: &[u8]) -> (Option<Found>, Option<u32>)
    ensures part { option_map found_seen result.0 ≡ part_reason (first_word text.now) }
    ensures at { result.1 ≡ number_of (first_word (after_word (after_word text.now))) }
{
    let (kind, rest) = split(text);
    let (_at, rest) = split(rest);
    let (offset, _) = split(rest);
    (part_reason(kind), number_in(offset))
}

fn hive_in(text: &[u8]) -> Heard
    ensures { heard_seen result ≡ hive_heard of_hive text.now }
{
    match place_in(text) {
        (Some(found), Some(at)) => Heard::Hive(found.part, found.reason, at),
        _ => Heard::Nothing,
    }
}

fn other_in(text: &[u8]) -> Heard
    ensures { heard_seen result ≡ hive_heard of_other text.now }
{
    match place_in(text) {
        (Some(found), Some(at)) => Heard::Other(found.part, found.reason, at),
        _ => Heard::Nothing,
    }
}

/// What a line has after `SUBJECT fault `.
fn fault_in(subject: &[u8], text: &[u8]) -> Heard
    ensures { heard_seen result ≡ fault_heard subject.now text.now }
{
    if is_word(subject, "hive") {
        hive_in(text)
    } else if is_word(subject, "with") {
        other_in(text)
    } else if is_word(subject, "script") {
        script_in(text)
    } else if is_word(subject, "reg") {
        reg_in(text)
    } else if is_word(subject, "boot.ini") {
        boot_ini_in(text)
    } else {
        Heard::Nothing
    }
}

/// What a line says of a fault.
pub fn heard_in(line: &[u8]) -> Heard
    ensures { heard_seen result ≡ heard_of line.now }
{
    let (subject, rest) = split(line);
    let (word, rest) = split(rest);
    if is_word(word, "fault") {
        fault_in(subject, rest)
    } else {
        Heard::Nothing
    }
}
