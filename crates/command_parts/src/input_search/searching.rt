//! Searches that several commands make.

ghost use Rattle.std.specs.Prelude.{◌≡◌, Err, option_map};
ghost use Rattle.boot_ini.specs.arc_path.Reading.{arc_of};
ghost use Rattle.command_parts.specs.command_parts.Inputs.{ini_in, system_in};
ghost use Rattle.command_parts.specs.command_parts.Leaves.{Reads};
ghost use Rattle.command_parts.specs.input_search.Search.{Seeks, boot_files, entries, file_if};

use crate::command_parts::{
    HiveFiles, Obstacle, Refusal, bytes_in, file_in, hive_in, ini_in, system_in,
};
use boot_ini::arc_path::Arc;
use boot_ini::boot_ini::BootIni;
use nt_bytes::Bytes;
use nt_edge::Host;
use std::alloc::Global;

/// boot.ini, and a hive with its log.
#[derive(Drop)]
pub struct BootFiles {
    pub ini: BootIni,
    pub hive: HiveFiles,
}

/// The system that a path names.
pub fn system_at(alloc: Global, path: &str) -> Result<Arc, Obstacle>
    ensures { Reads (system_in (arc_of path.now)) result }
{
    system_in(alloc, path.as_bytes())
}

/// The bytes of a file, where the command line names one. Nothing is printed.
pub fn file_if_named<H: Host>(
    alloc: Global,
    host: &mut H,
    name: Option<&str>,
) -> Result<Option<Bytes>, Obstacle>
    ensures seeks { Seeks (file_if (option_map (λ v. v.now) name.entry)) result (H.state host.old) (H.state host.new) }
    ensures kept { result ≡ Err (Obstacle.Refused Refusal.Usage) → ⊥ }
{
    match name {
        Some(name) => Ok(Some(file_in(alloc, host, name)?)),
        None => Ok(None),
    }
}

/// The entries of boot.ini's text, for a system of this path.
fn ini_of(alloc: Global, text: &Bytes, system: &str) -> Result<BootIni, Obstacle>
    ensures read { Reads (ini_in text.now system.now) result }
    ensures kept { result ≡ Err (Obstacle.Refused Refusal.Usage) → ⊥ }
{
    ini_in(alloc, text.as_slice(), system.as_bytes())
}

/// The entries of boot.ini, which is empty where the command line names none.
fn entries_in<H: Host>(
    alloc: Global,
    host: &mut H,
    name: Option<&str>,
    system: &str,
) -> Result<BootIni, Obstacle>
    ensures seeks { Seeks (entries (option_map (λ v. v.now) name.entry) system.now) result (H.state host.old) (H.state host.new) }
    ensures kept { result ≡ Err (Obstacle.Refused Refusal.Usage) → ⊥ }
{
    let text = bytes_in(alloc, host, name)?;
    ini_of(alloc, &text, system)
}

/// boot.ini, and then a hive and its log, or the first obstacle. Nothing is printed.
pub fn boot_files<H: Host>(
    alloc: Global,
    host: &mut H,
    boot_ini: Option<&str>,
    system: &str,
    hive: &str,
    log: Option<&str>,
) -> Result<BootFiles, Obstacle>
    ensures seeks { Seeks (boot_files (option_map (λ v. v.now) boot_ini.entry) system.now hive.now (option_map (λ v. v.now) log.entry)) result
        (H.state host.old) (H.state host.new) }
    ensures kept { result ≡ Err (Obstacle.Refused Refusal.Usage) → ⊥ }
{
    let ini = entries_in(alloc, host, boot_ini, system)?;
    let hive = hive_in(alloc, host, hive, log)?;
    Ok(BootFiles { ini, hive })
}
