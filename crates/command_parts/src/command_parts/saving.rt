//! The files of the disk, saved as files of the host.

ghost use Rattle.std.specs.Prelude.{◌≡◌, false, option_map};
ghost use Rattle.nt_edge.specs.Book.{file_of};
ghost use Rattle.hive_model.specs.Image.{Primary, Log};
ghost use Rattle.command_parts.specs.command_parts.Saves.{SavesFile, SavesBoth, FinishesAs, saved_status};
ghost use Rattle.command_parts.specs.command_parts.Views.{saves_seen};

use crate::command_parts::refusal::{stopped, tell};
use crate::command_parts::status::Status;
use nt_edge::{Bench, HiveFile, Host, HostStop};

/// The names under which the two files of the disk are saved.
#[derive(Clone, Copy)]
pub struct Saves<'a> {
    pub hive: Option<&'a str>,
    pub log: Option<&'a str>,
}

/// Saves the sectors of a file of the disk, which is off, from the first to the last one that is there.
fn save_as<H: Host, B: Bench>(
    file: HiveFile,
    name: &str,
    host: &mut H,
    bench: &mut B,
) -> Result<(), HostStop>
    requires off { (B.state bench.old).on ≡ false }
    ensures { SavesFile (file_of file) (Some name.now) result (H.state host.old) (H.state host.new) (B.state bench.old) (B.state bench.new) }
{
    match bench.take(file) {
        Ok(bytes) => host.put(name, bytes.as_slice()),
        Err(_) => Err(HostStop::Memory),
    }
}

/// Saves a file of the disk, where it has a name.
fn save_file<H: Host, B: Bench>(
    file: HiveFile,
    name: Option<&str>,
    host: &mut H,
    bench: &mut B,
) -> Result<(), HostStop>
    requires off { (B.state bench.old).on ≡ false }
    ensures { SavesFile (file_of file) (option_map (λ v. v.now) name.entry) result (H.state host.old) (H.state host.new)
        (B.state bench.old) (B.state bench.new) }
{
    match name {
        Some(name) => save_as(file, name, host, bench),
        None => Ok(()),
    }
}

/// Saves both files of the disk, each where it has a name: the hive's, and then the log's.
pub fn save<H: Host, B: Bench>(
    saves: Saves<'_>,
    host: &mut H,
    bench: &mut B,
) -> Result<(), HostStop>
    requires off { (B.state bench.old).on ≡ false }
    ensures { SavesBoth (saves_seen saves.entry) result (H.state host.old) (H.state host.new) (B.state bench.old) (B.state bench.new) }
{
    save_file(HiveFile::Primary, saves.hive, host, bench)?;
    save_file(HiveFile::Log, saves.log, host, bench)
}

/// The status after a call that saves.
pub fn saved(done: Result<(), HostStop>) -> Status
    ensures { result ≡ saved_status done }
{
    match done {
        Ok(()) => Status::Done,
        Err(stop) => stopped(stop),
    }
}

/// Says the line, and saves what the disk holds.
pub fn finish<H: Host, B: Bench>(
    line: &[u8],
    saves: Saves<'_>,
    host: &mut H,
    bench: &mut B,
) -> Status
    requires off { (B.state bench.old).on ≡ false }
    ensures { FinishesAs line.now (saves_seen saves.entry) result (H.state host.old) (H.state host.new) (B.state bench.old) (B.state bench.new) }
{
    match tell(host, line, Status::Done) {
        Status::Done => saved(save(saves, host, bench)),
        status => status,
    }
}
