//! Two open files as a disk.

ghost use Rattle.std.specs.Prelude.{◌≡◌};
ghost use Rattle.file_disk.specs.FileState.{stopped_of, both_of};

use crate::files::SectorFile;
use crate::sectors::{read_sector, write_sector};
use crate::system_file::SystemFile;
use nt_edge::{Address, Disk, DiskStop, HiveFile, Presence};
use std::fs::File;
use std::io::Result as IoResult;

/// The two open files of a hive. As a disk it is on, and its count of faults is that of the calls of its files that failed.
#[derive(Drop)]
pub struct FileDisk<F> {
    primary: F,
    log: F,
}

impl<F: SectorFile + Drop> FileDisk<F> {
    /// The disk of a hive's file and that of its log.
    pub fn over(primary: F, log: F) -> FileDisk<F>
        ensures primary { result.primary ≡ primary }
        ensures log { result.log ≡ log }
    {
        FileDisk { primary, log }
    }
}

impl FileDisk<SystemFile> {
    /// The disk of a hive's file and that of its log, both open for reading and writing.
    pub fn new(primary: File, log: File) -> FileDisk<SystemFile>
        ensures primary { result.primary.file ≡ primary }
        ensures log { result.log.file ≡ log }
    {
        FileDisk::over(SystemFile::new(primary), SystemFile::new(log))
    }
}

/// The answer of the disk to that of its files: each error is a failure.
fn stopped<T>(answer: IoResult<T>) -> Result<T, DiskStop>
    ensures { result ≡ stopped_of answer }
{
    match answer {
        Ok(found) => Ok(found),
        Err(_) => Err(DiskStop::Failed),
    }
}

/// The answer to two calls that are both made: done where both are.
fn both(first: IoResult<()>, second: IoResult<()>) -> IoResult<()>
    ensures { result ≡ both_of first second }
{
    match first {
        Ok(()) => second,
        Err(e) => Err(e),
    }
}

impl<F: SectorFile + Drop> Disk for FileDisk<F> {
    ghost use Rattle.std.specs.Prelude.{false};
    ghost use Rattle.file_disk.specs.Asked.{DiskCalls, no_calls};
    ghost use Rattle.file_disk.specs.FileState.{counting, counting_bounded};

    ghost tells = { false };

    ghost state = { λ disk. counting (F.failed disk.primary) (F.failed disk.log) };

    ghost calls = { λ disk. DiskCalls (F.asked disk.primary) (F.asked disk.log) };

    fn read(&mut self, at: Address, into: &mut [u8; 512]) -> Result<Presence, DiskStop> {
        match at.file {
            HiveFile::Primary => stopped(read_sector(&mut self.primary, at.sector, into)),
            HiveFile::Log => stopped(read_sector(&mut self.log, at.sector, into)),
        }
    }

    fn write(&mut self, at: Address, bytes: &[u8; 512]) -> Result<(), DiskStop> {
        match at.file {
            HiveFile::Primary => stopped(write_sector(&mut self.primary, at.sector, bytes)),
            HiveFile::Log => stopped(write_sector(&mut self.log, at.sector, bytes)),
        }
    }

    fn sync(&mut self) -> Result<(), DiskStop> {
        let primary = self.primary.sync_all();
        let log = self.log.sync_all();
        stopped(both(primary, log))
    }

    ghost bounded = { λ disk. counting_bounded (F.failed disk.primary) (F.failed disk.log) };

    ghost some = { λ disk. no_calls (F.some disk.primary) (F.some disk.log) };
}
