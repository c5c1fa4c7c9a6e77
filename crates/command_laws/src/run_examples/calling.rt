//! The call of the program on files in memory.

ghost use Rattle.std.specs.Prelude.{◌≡◌, List, Ok, IfOk, map, string_bytes};
ghost use Rattle.boot_script.specs.boot_script.Script.{script_of};
ghost use Rattle.boot_script.specs.declared.boot_script.event.Event.{Event};
ghost use Rattle.mem_edge.specs.Hosts.{host_of};
ghost use Rattle.command_laws.specs.run_examples.Files.{words, IsReady};
ghost use Rattle.command_laws.specs.run_examples.Runs.{Runs};

use generated_hive::generated_hive;
use mem_edge::{MemDisk, MemHost};
use nt_bytes::Bytes;
use ntboot_cli::{Status, ntboot};
use std::alloc::{AllocError, Global};

/// How a call of the program ended, and all that it printed.
#[derive(Drop)]
pub struct Ran {
    pub status: Status,
    pub said: Bytes,
}

/// The file `boot.ini`.
const INI: &str = "[boot loader]
timeout=30
default=multi(0)disk(0)rdisk(0)partition(1)\\WINDOWS
[operating systems]
multi(0)disk(0)rdisk(0)partition(1)\\WINDOWS=\"Windows\" /fastdetect
";

/// Words of a command line.
fn owned(alloc: Global, words: &[&str]) -> Result<Vec<String>, AllocError>
    ensures { IfOk result (λ owned. map string_bytes owned.items ≡ map (λ w. w.now) words.now) }
{
    let mut owned = Vec::new(alloc);
    for word in words {
        owned.push(String::from_str(alloc, word)?)?;
    }
    Ok(owned)
}

/// The command line.
fn command_line(alloc: Global) -> Result<Vec<String>, AllocError>
    ensures { IfOk result (λ line. map string_bytes line.items ≡ words) }
{
    owned(
        alloc,
        &[
            "run",
            "--hive",
            "hive",
            "--boot-ini",
            "boot.ini",
            "--script",
            "script",
        ],
    )
}

/// A host with the three files.
fn host_with(alloc: Global, hive: &[u8], script: &str) -> Result<MemHost, AllocError>
    ensures { IfOk result (λ host. IsReady hive.now script.now (host_of host)) }
{
    let mut host = MemHost::new(alloc);
    host.add("hive", hive)?;
    host.add("boot.ini", INI.as_bytes())?;
    host.add("script", script.as_bytes())?;
    Ok(host)
}

/// Calls the program with this script, on the hive of a generated system with three services and on a new disk.
pub(crate) fn run(alloc: Global, script: &str) -> Result<Ran, AllocError>
    ensures { IfOk result (λ ran. (events : List Event) → script_of script.now ≡ Ok events → Runs events ran.status ran.said) }
{
    let hive = generated_hive(alloc, 3)?;
    let line = command_line(alloc)?;
    let mut host = host_with(alloc, hive.as_slice(), script)?;
    let mut disk = MemDisk::new(alloc);
    let status = ntboot(alloc, line.as_slice(), &mut host, &mut disk);
    let said = Bytes::from_slice(alloc, host.said())?;
    Ok(Ran { status, said })
}
