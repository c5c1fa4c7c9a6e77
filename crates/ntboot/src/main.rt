//! What a Windows NT machine starts, from its SYSTEM hive.
//!
//! The program is the top call of `ntboot_cli` over the files of the system, standard output and a disk in memory. What it saves has its
//! names once all of it is written.
#![tactic(auto)]

mod clean_hive;

ghost use Rattle.std.specs.Prelude.{◌≡◌, ◌⊎◌, Err, IsErrOf, None, OnOk, map, string_bytes};
ghost use Rattle.std.specs.Option.{IsSome};
ghost use Rattle.std.specs.Process.{exit_status};
ghost use Rattle.nt_bytes.specs.Counts.{Rises};
ghost use Rattle.nt_edge.specs.declared.host.HostStop.TheVariants.{Read, Write};
ghost use Rattle.command_words.specs.Reading.{reading_of};
ghost use Rattle.command_parts.specs.command_parts.Exits.{exit_of};
ghost use Rattle.command_parts.specs.command_parts.Leaves.{stop_in};
ghost use Rattle.command_parts.specs.command_parts.Refusals.{IsToldAs};
ghost use Rattle.command_parts.specs.declared.command_parts.refusal.Refusal.TheVariants.{Usage as BadUsage};
ghost use Rattle.ntboot_cli.specs.Inputs.{arguments_in};

use clean_hive::hive_between;
use command_words::texts;
use mem_edge::MemDisk;
use nt_edge::HostStop;
use ntboot_cli::{Status, ntboot};
use refusal_reason::refusal_reason::{Noted, explain};
use standard_host::{StandardHost, SystemFiles, take_standard_descriptors};
use std::alloc::Global;
use std::env;
use std::io::ErrorKind;
use std::process::ExitCode;

/// Why there are no words.
enum NoWords {
    /// A word is no UTF-8.
    Unread,
    Memory,
}

/// The command line without the program's name.
fn words(rt: &HostRuntime) -> Result<Vec<String>, NoWords> {
    let mut words = Vec::new(rt.alloc());
    let mut args = match env::args(rt) {
        Ok(args) => args,
        Err(e) if e.kind() == ErrorKind::InvalidData => return Err(NoWords::Unread),
        Err(_) => return Err(NoWords::Memory),
    };
    let _program = args.next();
    for word in args {
        if words.push(word).is_err() {
            return Err(NoWords::Memory);
        }
    }
    Ok(words)
}

/// Gives the files that were put their names. Where a hive that needs its log takes the place of another such hive, one with the same tree that
/// needs none stands between, so that each moment has a hive that loads.
fn finish(
    alloc: Global,
    host: &mut StandardHost<'_, SystemFiles>,
    disk: &mut MemDisk,
) -> Result<(), HostStop>
    ensures unread { IsErrOf result Read → ⊥ }
    ensures fault { IsErrOf result Write → Rises host.old.writes host.new.writes }
    ensures counted { OnOk result (host.new.writes ≡ host.old.writes) }
{
    let wanted = host.wants_a_clean_hive();
    if let Some(hive) = hive_between(alloc, wanted, disk)? {
        host.put_between(hive.as_slice())?;
    }
    host.finish()
}

/// Ends a run: the files that were put get their names, or are given up where the run ended before all of them were written.
fn settle(
    alloc: Global,
    host: &mut StandardHost<'_, SystemFiles>,
    disk: &mut MemDisk,
    status: Status,
) -> Status
    ensures ends { IsToldAs status result }
    ensures stopped { IsSome (stop_in status) → result ≡ status }
    ensures fault { result ≡ Status.WriteFault → (status ≡ Status.WriteFault) ⊎ Rises host.old.writes host.new.writes }
    ensures finished { stop_in status ≡ None → result ≡ status → host.new.writes ≡ host.old.writes }
{
    let done = match status {
        Status::ReadFault | Status::WriteFault | Status::Memory => status,
        _ => match finish(alloc, host, disk) {
            Ok(()) => status,
            Err(HostStop::Memory) => Status::Memory,
            Err(_) => Status::WriteFault,
        },
    };
    host.abandon();
    done
}

/// Does what the command line asks for over real files; then prints the reason of a refusal, where that is asked for.
fn obey(rt: &HostRuntime, words: &[String], texts: &[&str]) -> Status
    ensures usage { result ≡ Status.Usage → arguments_in (reading_of (map string_bytes words.now)) ≡ Err BadUsage }
    ensures refused { arguments_in (reading_of (map string_bytes words.now)) ≡ Err BadUsage → IsToldAs Status.Usage result }
{
    let alloc = rt.alloc();
    let host = StandardHost::new(rt, SystemFiles::new(alloc));
    let mut host = Noted::new(alloc, host, texts);
    let mut disk = MemDisk::new(alloc);
    let answered = ntboot(alloc, words, &mut host, &mut disk);
    let (mut host, texts, mut notes) = host.into_parts();
    let status = settle(alloc, &mut host, &mut disk, answered);
    notes.end(answered, status);
    explain(alloc, texts, status, &notes, &mut host);
    status
}

/// The status of the command line, or that there is no memory for it.
fn read_and_obey(rt: &HostRuntime, words: &[String]) -> Status
    ensures usage { result ≡ Status.Usage → arguments_in (reading_of (map string_bytes words.now)) ≡ Err BadUsage }
    ensures refused { arguments_in (reading_of (map string_bytes words.now)) ≡ Err BadUsage → IsToldAs Status.Usage result }
{
    match texts(rt.alloc(), words) {
        Ok(texts) => obey(rt, words, texts.as_slice()),
        Err(_) => Status::Memory,
    }
}

/// The exit code of a status.
fn exit(status: Status) -> ExitCode
    ensures { exit_status result ≡ exit_of status }
{
    ExitCode::from(status.code())
}

fn main(rt: HostRuntime) -> ExitCode {
    if take_standard_descriptors(&rt).is_err() {
        return exit(Status::WriteFault);
    }
    let status = match words(&rt) {
        Ok(words) => read_and_obey(&rt, &words),
        // They cannot be parsed, as no words have none.
        Err(NoWords::Unread) => read_and_obey(&rt, &[]),
        Err(NoWords::Memory) => Status::Memory,
    };
    exit(status)
}
