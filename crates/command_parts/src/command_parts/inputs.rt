//! The files that words name, each asked for once, up to the first obstacle.

ghost use Rattle.std.specs.Prelude.{◌≡◌, None, Err, option_map};
ghost use Rattle.boot_ini.specs.arc_path.Reading.{arc_of};
ghost use Rattle.nt_edge.specs.Host.{Asks};
ghost use Rattle.command_parts.specs.command_parts.Inputs.{system_in, file_in, bytes_in, log_in, hive_in, ini_in, AsksHive};
ghost use Rattle.command_parts.specs.command_parts.Leaves.{AsksUntil, Looks, Reads, more, named};

use crate::command_parts::refusal::{Obstacle, Refusal};
use boot_ini::arc_path::{Arc, ArcStop, read_arc};
use boot_ini::boot_ini::{BootIni, IniStop, read_boot_ini};
use nt_bytes::Bytes;
use nt_edge::{Host, HostStop};
use std::alloc::Global;

/// A hive's file, and that of its log where the command line names one.
#[derive(Drop)]
pub struct HiveFiles {
    pub primary: Bytes,
    pub log: Option<Bytes>,
}

/// There was no memory.
pub fn no_memory() -> Obstacle
    ensures { result ≡ Obstacle.Stopped HostStop.Memory }
{
    Obstacle::Stopped(HostStop::Memory)
}

/// The system that a path names.
pub fn system_in(alloc: Global, path: &[u8]) -> Result<Arc, Obstacle>
    ensures { Reads (system_in (arc_of path.now)) result }
{
    match read_arc(alloc, path) {
        Ok(system) => Ok(system),
        Err(ArcStop::Fault(_)) => Err(Obstacle::Refused(Refusal::Usage)),
        Err(ArcStop::Memory) => Err(no_memory()),
    }
}

/// The obstacle that a file of this name is absent.
fn absent(alloc: Global, name: &str) -> Obstacle
    ensures { Reads (file_in name.now None) (Err result) }
{
    match Bytes::from_slice(alloc, name.as_bytes()) {
        Ok(name) => Obstacle::Refused(Refusal::NoFile(name)),
        Err(_) => no_memory(),
    }
}

/// The bytes of a file, or its absence.
pub fn file_in<H: Host>(alloc: Global, host: &mut H, name: &str) -> Result<Bytes, Obstacle>
    ensures looks { Looks (file_in name.now ((H.state host.old).files name.now)) result (H.state host.old) (H.state host.new) }
    ensures asks { Asks (H.state host.old) (H.state host.new) }
    ensures kept { result ≡ Err (Obstacle.Refused Refusal.Usage) → ⊥ }
{
    match host.get(name) {
        Ok(Some(bytes)) => Ok(bytes),
        Ok(None) => Err(absent(alloc, name)),
        Err(stop) => Err(Obstacle::Stopped(stop)),
    }
}

/// The bytes of a file that the words may leave out: it is empty where they do.
pub fn bytes_in<H: Host>(alloc: Global, host: &mut H, name: Option<&str>) -> Result<Bytes, Obstacle>
    ensures looks { Looks (bytes_in (H.state host.old).files (option_map (λ v. v.now) name.entry)) result (H.state host.old) (H.state host.new) }
    ensures asks { (H.state host.new).gets ≡ more (named (option_map (λ v. v.now) name.entry)) (H.state host.old).gets }
    ensures until { AsksUntil (named (option_map (λ v. v.now) name.entry)) result (H.state host.old).gets (H.state host.new).gets }
    ensures kept { result ≡ Err (Obstacle.Refused Refusal.Usage) → ⊥ }
{
    match name {
        Some(name) => file_in(alloc, host, name),
        None => Ok(Bytes::new(alloc)),
    }
}

/// The entries of boot.ini's text, for a system of this path.
pub fn ini_in(alloc: Global, text: &[u8], system: &[u8]) -> Result<BootIni, Obstacle>
    ensures { Reads (ini_in text.now system.now) result }
{
    match read_boot_ini(alloc, text, system) {
        Ok(ini) => Ok(ini),
        Err(IniStop::TooLong) => Err(Obstacle::Refused(Refusal::IniTooLong)),
        Err(IniStop::TooManyEntries) => Err(Obstacle::Refused(Refusal::IniTooManyEntries)),
        Err(IniStop::Memory) => Err(no_memory()),
    }
}

/// The bytes of the log, where the command line names one.
fn log_in<H: Host>(
    alloc: Global,
    host: &mut H,
    name: Option<&str>,
) -> Result<Option<Bytes>, Obstacle>
    ensures looks { Looks (log_in (H.state host.old).files (option_map (λ v. v.now) name.entry)) result (H.state host.old) (H.state host.new) }
    ensures asks { (H.state host.new).gets ≡ more (named (option_map (λ v. v.now) name.entry)) (H.state host.old).gets }
    ensures kept { result ≡ Err (Obstacle.Refused Refusal.Usage) → ⊥ }
{
    match name {
        Some(name) => Ok(Some(file_in(alloc, host, name)?)),
        None => Ok(None),
    }
}

/// The hive and its log, or the first obstacle. Nothing is printed.
pub fn hive_in<H: Host>(
    alloc: Global,
    host: &mut H,
    hive: &str,
    log: Option<&str>,
) -> Result<HiveFiles, Obstacle>
    ensures looks { Looks (hive_in (H.state host.old).files hive.now (option_map (λ v. v.now) log.entry)) result (H.state host.old) (H.state host.new) }
    ensures asks { AsksHive hive.now (option_map (λ v. v.now) log.entry) result (H.state host.old) (H.state host.new) }
    ensures kept { result ≡ Err (Obstacle.Refused Refusal.Usage) → ⊥ }
{
    let primary = file_in(alloc, host, hive)?;
    let log = log_in(alloc, host, log)?;
    Ok(HiveFiles { primary, log })
}
