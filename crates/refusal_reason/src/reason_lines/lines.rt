//! The lines of reasons.

ghost use Rattle.std.specs.Prelude.{◌≡◌, IfOk, map, option_map};
ghost use Rattle.refusal_reason.specs.reason_lines.Lines.{absent_for, absent_line, absent_text, bins_line, byte_line, heard_line, hive_line, log_line, memory_line, name_of, needed_log, recovered_line, script_name, second_of, text_line, unread_line, unwritten_line, whole_line, hive_of, other_of};
ghost use Rattle.refusal_reason.specs.reason_lines.Seen.{heard_seen, pair_seen};

use crate::reason_lines::files::{option_for, value_of};
use crate::reason_lines::heard::Heard;
use crate::reason_lines::kinds::Part;
use std::alloc::{AllocError, Global};

/// The line where nothing more is known.
pub fn memory_line(alloc: Global) -> Result<Vec<u8>, AllocError>
    ensures { IfOk result (λ l. l.items ≡ memory_line) }
{
    Vec::from_slice(alloc, b"ntboot: out of memory\n")
}

fn absent_text(alloc: Global, option: &str, name: &str) -> Result<Vec<u8>, AllocError>
    ensures { IfOk result (λ l. l.items ≡ absent_text option.now name.now) }
{
    Ok(format!(in alloc; "ntboot: {option}: no file {name}\n")?.into_bytes())
}

fn absent_for(alloc: Global, option: Option<&str>, name: &str) -> Result<Vec<u8>, AllocError>
    ensures { IfOk result (λ l. l.items ≡ absent_for (option_map (λ t. t.now) option.entry) name.now) }
{
    match option {
        Some(option) => absent_text(alloc, option, name),
        None => memory_line(alloc),
    }
}

/// The file that was asked for and is not there.
pub fn absent_line(alloc: Global, words: &[&str], name: Option<&str>) -> Result<Vec<u8>, AllocError>
    ensures { IfOk result (λ l. l.items ≡ absent_line (map (λ w. w.now) words.now) (option_map (λ t. t.now) name.entry)) }
{
    match name {
        Some(name) => absent_for(alloc, option_for(words, name), name),
        None => memory_line(alloc),
    }
}

/// A file that could not be read.
pub fn unread_line(alloc: Global, name: Option<&str>) -> Result<Vec<u8>, AllocError>
    ensures { IfOk result (λ l. l.items ≡ unread_line (option_map (λ t. t.now) name.entry)) }
{
    match name {
        Some(name) => Ok(format!(in alloc; "ntboot: can't read {name}\n")?.into_bytes()),
        None => memory_line(alloc),
    }
}

/// A file that could not be written, or the report.
pub fn unwritten_line(alloc: Global, name: Option<&str>) -> Result<Vec<u8>, AllocError>
    ensures { IfOk result (λ l. l.items ≡ unwritten_line (option_map (λ t. t.now) name.entry)) }
{
    match name {
        Some(name) => Ok(format!(in alloc; "ntboot: can't write {name}\n")?.into_bytes()),
        None => Vec::from_slice(alloc, b"ntboot: can't write the report\n"),
    }
}

/// A fault of all of a file.
fn whole_line(alloc: Global, name: &str, reason: &str) -> Result<Vec<u8>, AllocError>
    ensures { IfOk result (λ l. l.items ≡ whole_line name.now reason.now) }
{
    Ok(format!(in alloc; "ntboot: {name}: {reason}\n")?.into_bytes())
}

/// A fault of a text at a line, or of all of it at line 0.
fn text_line(alloc: Global, name: &str, at: u32, reason: &str) -> Result<Vec<u8>, AllocError>
    ensures { IfOk result (λ l. l.items ≡ text_line name.now at reason.now) }
{
    if at == 0 {
        whole_line(alloc, name, reason)
    } else {
        Ok(format!(in alloc; "ntboot: {name}:{at}: {reason}\n")?.into_bytes())
    }
}

fn byte_line(alloc: Global, name: &str, at: u64, reason: &str) -> Result<Vec<u8>, AllocError>
    ensures { IfOk result (λ l. l.items ≡ byte_line name.now at reason.now) }
{
    Ok(format!(in alloc; "ntboot: {name}: byte {at}: {reason}\n")?.into_bytes())
}

/// A fault of a log, or of a dirty hive that has none.
fn log_line(
    alloc: Global,
    name: &str,
    log: Option<&str>,
    at: u32,
    reason: &str,
) -> Result<Vec<u8>, AllocError>
    ensures { IfOk result (λ l. l.items ≡ log_line name.now (option_map (λ t. t.now) log.entry) at reason.now) }
{
    match log {
        Some(log) => byte_line(alloc, log, at as u64, reason),
        None => whole_line(alloc, name, reason),
    }
}

/// A fault of the bins of a dirty hive with its log.
fn recovered_line(
    alloc: Global,
    name: &str,
    log: &str,
    at: u32,
    reason: &str,
) -> Result<Vec<u8>, AllocError>
    ensures { IfOk result (λ l. l.items ≡ recovered_line name.now log.now at reason.now) }
{
    Ok(format!(in alloc;
        "ntboot: {name} with {log}: byte {at} of the bins: {reason}\n"
    )?.into_bytes())
}

/// A fault of bins, whose bytes count from byte 4096 of a hive's file.
fn bins_line(
    alloc: Global,
    name: &str,
    log: Option<&str>,
    at: u32,
    reason: &str,
) -> Result<Vec<u8>, AllocError>
    ensures { IfOk result (λ l. l.items ≡ bins_line name.now (option_map (λ t. t.now) log.entry) at reason.now) }
{
    match log {
        Some(log) => recovered_line(alloc, name, log, at, reason),
        None => byte_line(alloc, name, at as u64 + 4096, reason),
    }
}

/// A hive's two files, and whether the first is dirty.
#[derive(Clone, Copy)]
struct Pair<'a> {
    name: &'a str,
    log: Option<&'a str>,
    dirty: bool,
}

/// The second file, where the first is dirty.
fn needed_log<'a>(pair: Pair<'a>) -> Option<&'a str>
    ensures { option_map (λ t. t.now) result ≡ needed_log (pair_seen pair.entry) }
{
    if pair.dirty { pair.log } else { None }
}

fn hive_line(
    alloc: Global,
    pair: Pair<'_>,
    part: Part,
    at: u32,
    reason: &str,
) -> Result<Vec<u8>, AllocError>
    ensures { IfOk result (λ l. l.items ≡ hive_line (pair_seen pair.entry) part at reason.now) }
{
    match part {
        Part::Base => byte_line(alloc, pair.name, at as u64, reason),
        Part::Log => log_line(alloc, pair.name, pair.log, at, reason),
        Part::Bins => bins_line(alloc, pair.name, needed_log(pair), at, reason),
    }
}

/// The file that an option names; nothing where it names none.
fn name_of<'a>(words: &[&'a str], option: &str) -> &'a str
    ensures { result.now ≡ name_of (map (λ w. w.now) words.now) option.now }
{
    match value_of(words, option) {
        Some(name) => name,
        None => "",
    }
}

/// The file of a script, or of the commands of `control`.
fn script_name<'a>(words: &[&'a str]) -> &'a str
    ensures { result.now ≡ script_name (map (λ w. w.now) words.now) }
{
    match value_of(words, "--script") {
        Some(name) => name,
        None => name_of(words, "--commands"),
    }
}

/// The second file of a hive: its copy, or its log.
fn second_of<'a>(words: &[&'a str]) -> Option<&'a str>
    ensures { option_map (λ t. t.now) result ≡ second_of (map (λ w. w.now) words.now) }
{
    match value_of(words, "--alt") {
        Some(copy) => Some(copy),
        None => value_of(words, "--log"),
    }
}

/// The files of the hive.
fn hive_of<'a>(words: &[&'a str], dirty: bool) -> Pair<'a>
    ensures { pair_seen result ≡ hive_of (map (λ w. w.now) words.now) dirty }
{
    Pair {
        name: name_of(words, "--hive"),
        log: second_of(words),
        dirty,
    }
}

/// The files of the second hive of `diff`.
fn other_of<'a>(words: &[&'a str], dirty: bool) -> Pair<'a>
    ensures { pair_seen result ≡ other_of (map (λ w. w.now) words.now) dirty }
{
    Pair {
        name: name_of(words, "--with"),
        log: value_of(words, "--with-log"),
        dirty,
    }
}

/// The line for the fault that a printed line says, where the hive is dirty, and the second one.
pub fn heard_line(
    alloc: Global,
    words: &[&str],
    heard: Heard,
    dirty: bool,
    other_dirty: bool,
) -> Result<Vec<u8>, AllocError>
    ensures { IfOk result (λ l. l.items ≡ heard_line (map (λ w. w.now) words.now) (heard_seen heard) dirty other_dirty) }
{
    match heard {
        Heard::Nothing => memory_line(alloc),
        Heard::Script(reason, at) => text_line(alloc, script_name(words), at, reason),
        Heard::BootIni(reason) => whole_line(alloc, name_of(words, "--boot-ini"), reason),
        Heard::Reg(reason, at) => text_line(alloc, name_of(words, "--reg"), at, reason),
        Heard::Hive(part, reason, at) => {
            hive_line(alloc, hive_of(words, dirty), part, at, reason)
        }
        Heard::Other(part, reason, at) => {
            hive_line(alloc, other_of(words, other_dirty), part, at, reason)
        }
    }
}
