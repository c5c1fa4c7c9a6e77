//! Reading a text of boot.ini, once from its first line to its last.

ghost use Rattle.std.specs.Prelude.{◌≡◌, ◌≤◌, ◌<◌, ◌+◌, ◌++◌, ◌∷◌, [], List, ℕ, length, codes, Err, IfOk, IfErr, OnOk};
ghost use Rattle.std.specs.Option.{option_map, option_or};
ghost use Rattle.boot_ini.specs.declared.boot_ini.keys.Section.{Section};
ghost use Rattle.boot_ini.specs.boot_ini.Keys.{said_lines, lines_in};
ghost use Rattle.boot_ini.specs.boot_ini.Ini.{first_of, values_from, entries_from, timeout_text, default_path, entries_in, timeout_of, entries_or, chosen_of, ini_of, RefusesEntries, Refuses, IsReadable, HasNumber};

use crate::boot_ini::entries::entry_on;
use crate::boot_ini::ini::{BootIni, IniStop, OsEntries, OsEntry, Switches};
use crate::boot_ini::keys::{Section, is_opening, is_said, opened, value_for};
use nt_bytes::{Bytes, are_digits, first_line, is_named, trim, value_of};
use std::alloc::{AllocError, Global};

/// What the lines read so far have said.
#[derive(Debug, Drop)]
struct Draft<'a> {
    section: Section,
    timeout: Option<&'a [u8]>,
    default: Option<&'a [u8]>,
    entries: OsEntries,
}

impl<'a> Draft<'a> {
    /// Takes in the next line.
    fn take(&mut self, alloc: Global, raw: &'a [u8]) -> Result<(), IniStop>
        requires few { length self.old.entries ≤ 64 }
        ensures splits { OnOk result ((wanted : Section) (more : List (List ℕ)) → lines_in wanted self.old.section (said_lines (raw.now ∷ more))
            ≡ lines_in wanted self.old.section (said_lines (raw.now ∷ [])) ++ lines_in wanted self.new.section (said_lines more)) }
        ensures timeout { OnOk result (option_map (λ x. x.now) self.new.timeout
            ≡ option_or (option_map (λ x. x.now) self.old.timeout) (first_of (values_from (codes "timeout") self.old.section (said_lines (raw.now ∷ []))))) }
        ensures default { OnOk result (option_map (λ x. x.now) self.new.default
            ≡ option_or (option_map (λ x. x.now) self.old.default) (first_of (values_from (codes "default") self.old.section (said_lines (raw.now ∷ []))))) }
        ensures entries { OnOk result (self.new.entries ≡ self.old.entries ++ entries_from self.old.section (said_lines (raw.now ∷ []))) }
        ensures few { OnOk result (length self.new.entries ≤ 64) }
        ensures refused { IfErr result (RefusesEntries (length (self.old.entries ++ entries_from self.old.section (said_lines (raw.now ∷ []))))) }
    {
        let line = trim(raw);
        if !is_said(line) {
            return Ok(());
        }
        if is_opening(line) {
            self.section = opened(line);
            return Ok(());
        }
        match self.section {
            Section::Loader => {
                if self.timeout.is_none() {
                    self.timeout = value_for(b"timeout", line);
                }
                if self.default.is_none() {
                    self.default = value_for(b"default", line);
                }
            }
            Section::Systems => {
                if let Some(entry) = entry_on(alloc, line)? {
                    if self.entries.len() == 64 {
                        return Err(IniStop::TooManyEntries);
                    }
                    self.entries.push(entry)?;
                }
            }
            Section::Other => {}
        }
        Ok(())
    }
}

fn all_lines(alloc: Global, text: &[u8]) -> Result<Draft<'_>, IniStop>
    ensures timeout { IfOk result (λ d. option_map (λ x. x.now) d.timeout ≡ timeout_text text.now) }
    ensures default { IfOk result (λ d. option_map (λ x. x.now) d.default ≡ default_path text.now) }
    ensures entries { IfOk result (λ d. d.entries ≡ entries_in text.now) }
    ensures few { IfOk result (λ d. length d.entries ≤ 64) }
    ensures refused { IfErr result (RefusesEntries (length (entries_in text.now))) }
{
    let mut draft = Draft {
        section: Section::Other,
        timeout: None,
        default: None,
        entries: OsEntries::new(alloc),
    };
    let mut rest = text;
    while !rest.is_empty() {
        let (line, after) = first_line(rest);
        draft.take(alloc, line)?;
        rest = after;
    }
    Ok(draft)
}

fn seconds(text: &[u8]) -> i32
    ensures { result ≡ timeout_of (Some text.now) }
{
    if text == b"-1".as_slice() {
        return -1;
    }
    if are_digits(text) && text.len() <= 9 {
        return value_of(text) as i32;
    }
    30
}

fn timeout(text: Option<&[u8]>) -> i32
    ensures { result ≡ timeout_of (option_map (λ x. x.now) text.entry) }
{
    match text {
        Some(text) => seconds(text),
        None => 30,
    }
}

/// The entries, or one at the system's path where there are none.
fn or_system(alloc: Global, entries: OsEntries, system: &[u8]) -> Result<OsEntries, AllocError>
    requires { length entries ≤ 64 }
    ensures entries { IfOk result (λ es. es ≡ entries_or system.now entries) }
    ensures some { IfOk result (λ es. 0 < length es) }
    ensures few { IfOk result (λ es. length es ≤ 64) }
{
    if !entries.is_empty() {
        return Ok(entries);
    }
    let mut made = OsEntries::new(alloc);
    made.push(OsEntry {
        path: Bytes::from_slice(alloc, system)?,
        title: Bytes::from_slice(alloc, b"Windows")?,
        switches: Switches::new(alloc),
    })?;
    Ok(made)
}

fn number_of(default: &[u8], entries: &[OsEntry]) -> u32
    requires some { 0 < length entries.now }
    requires few { length entries.now ≤ 64 }
    ensures number { result ≡ chosen_of (Some default.now) entries.now }
    ensures low { 1 ≤ result }
    ensures high { result ≤ length entries.now }
{
    let mut number = 1;
    for entry in entries {
        if is_named(entry.path.as_slice(), default) {
            return number;
        }
        number += 1;
    }
    1
}

fn chosen(default: Option<&[u8]>, entries: &[OsEntry]) -> u32
    requires some { 0 < length entries.now }
    requires few { length entries.now ≤ 64 }
    ensures number { result ≡ chosen_of (option_map (λ x. x.now) default.entry) entries.now }
    ensures low { 1 ≤ result }
    ensures high { result ≤ length entries.now }
{
    match default {
        Some(default) => number_of(default, entries),
        None => 1,
    }
}

/// What the text says. Where it has no entry, one at the system's path is in.
pub fn read_boot_ini(alloc: Global, text: &[u8], system: &[u8]) -> Result<BootIni, IniStop>
    ensures read { IfOk result (λ ini. ini ≡ ini_of text.now system.now) }
    ensures chosen { IfOk result (λ ini. HasNumber ini.chosen ini.entries) }
    ensures few { IfOk result (λ ini. length ini.entries ≤ 64) }
    ensures accepted { OnOk result (IsReadable text.now) }
    ensures refused { IfErr result (Refuses text.now) }
    ensures long { 65536 < length text.now → result ≡ Err IniStop.TooLong }
{
    if 65536 < text.len() {
        return Err(IniStop::TooLong);
    }
    let draft = all_lines(alloc, text)?;
    let timeout = timeout(draft.timeout);
    let default = draft.default;
    let entries = or_system(alloc, draft.entries, system)?;
    let chosen = chosen(default, entries.as_slice());
    Ok(BootIni {
        timeout,
        chosen,
        entries,
    })
}
