//! Which entry a start takes.

ghost use Rattle.std.specs.Prelude.{◌≡◌, false, Option, Ok, Err, IfOk};
ghost use Rattle.boot_ini.specs.arc_path.Reading.{arc_of};
ghost use Rattle.boot_ini.specs.declared.arc_path.arc.ArcFault.{ArcFault as Fault};
ghost use Rattle.std.specs.Option.{option_copied};
ghost use Rattle.boot_ini.specs.boot_ini.Choice.{entry_at, asked_for, is_drive, is_system, choice_at, choice_of, IsThere, asks_for_last_known_good};

use crate::arc_path::{Arc, ArcStop, read_arc, same_arc};
use crate::boot_ini::ini::{BootIni, OsEntry};
use nt_bytes::is_named;
use std::alloc::{AllocError, Global};

/// The entry of a start, or why it has none. Entries are counted from 1.
#[derive(Clone, Copy, Debug, PartialEq, Eq)]
pub enum Chosen {
    /// This entry is the system.
    Entry(u32),
    /// There are not that many entries.
    NoEntry,
    /// This entry begins with a drive, so another loader starts it.
    OtherLoader(u32),
    /// This entry is no ARC path, or another one than the system's.
    NoSystem(u32),
}

impl BootIni {
    /// The entry of a number, counted from 1.
    pub fn entry(&self, number: u32) -> Option<&OsEntry>
        ensures { option_copied result ≡ entry_at self.now.entries number }
    {
        if number == 0 {
            return None;
        }
        self.entries.get(number as usize - 1)
    }
}

fn asked(ini: &BootIni, wanted: Option<u32>) -> u32
    ensures { result ≡ asked_for ini.now wanted }
{
    match wanted {
        Some(wanted) => {
            if ini.timeout == 0 {
                return ini.chosen;
            }
            wanted
        }
        None => ini.chosen,
    }
}

fn begins_with_drive(path: &[u8]) -> bool
    ensures { result ≡ is_drive path.now }
{
    match path {
        [letter, b':', ..] => letter.is_ascii_alphabetic(),
        _ => false,
    }
}

fn means_system(alloc: Global, path: &[u8], system: &Arc) -> Result<bool, AllocError>
    ensures known { IfOk result (λ b. b ≡ is_system system.now path.now) }
    ensures other { (f : Fault) → arc_of path.now ≡ Err f → result ≡ Ok false }
{
    match read_arc(alloc, path) {
        Ok(arc) => Ok(same_arc(&arc, system)),
        Err(ArcStop::Fault(_)) => Ok(false),
        Err(ArcStop::Memory) => Err(AllocError),
    }
}

fn judged(
    alloc: Global,
    number: u32,
    entry: Option<&OsEntry>,
    system: &Arc,
) -> Result<Chosen, AllocError>
    ensures { IfOk result (λ c. c ≡ choice_at system.now number (option_copied entry.entry)) }
{
    let Some(entry) = entry else {
        return Ok(Chosen::NoEntry);
    };
    if begins_with_drive(entry.path.as_slice()) {
        return Ok(Chosen::OtherLoader(number));
    }
    if means_system(alloc, entry.path.as_slice(), system)? {
        return Ok(Chosen::Entry(number));
    }
    Ok(Chosen::NoSystem(number))
}

/// What a start takes that wants the entry of this number, or none.
pub fn choose(
    alloc: Global,
    ini: &BootIni,
    wanted: Option<u32>,
    system: &Arc,
) -> Result<Chosen, AllocError>
    ensures choice { IfOk result (λ c. c ≡ choice_of ini.now wanted system.now) }
    ensures there { IfOk result (IsThere ini.now.entries) }
{
    let number = asked(ini, wanted);
    judged(alloc, number, ini.entry(number), system)
}

/// Whether the entry has the switch `/LASTKNOWNGOOD`, in either case.
pub fn wants_last_known_good(entry: &OsEntry) -> bool
    ensures { result ≡ asks_for_last_known_good entry.now }
{
    entry
        .switches
        .as_slice()
        .iter()
        .any(|switch| is_named(switch.as_slice(), b"/LASTKNOWNGOOD"))
}
