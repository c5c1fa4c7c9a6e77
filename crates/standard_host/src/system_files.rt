//! The files of the system. One is read whole; those that are put are all written and synced before the first of them has its name.

use crate::files::{FileFault, Files};
use crate::output::{say_error_out, say_out};
use crate::staged::{StagedFile, stage};
use nt_bytes::Bytes;
use std::alloc::Global;
use std::fs;
use std::fs::{File, OpenOptions};
use std::io::{Error, ErrorKind, Read, Result as IoResult, Write};

/// The greatest file that is read, in bytes. A longer one is a read error, so that no part of a
/// file is taken for the whole, and a file without an end stops.
const MOST: usize = 268_435_456;

/// Files by their paths, and those of them that are written and wait for their names.
#[derive(Drop)]
pub struct SystemFiles {
    staged: Vec<StagedFile>,
}

/// The fault that an error of the system is.
fn fault(error: &Error) -> FileFault {
    if error.kind() == ErrorKind::OutOfMemory {
        FileFault::Memory
    } else {
        FileFault::Failed
    }
}

/// All the bytes of a file that is not too long. A read that a signal ends is made again.
fn read_all(alloc: Global, file: &mut File) -> Result<Vec<u8>, FileFault> {
    let mut bytes = Vec::new(alloc);
    let mut buffer = [0u8; 65536];
    for _ in 0..u64::MAX {
        let n = match file.read(&mut buffer) {
            Ok(n) => n,
            Err(e) if e.kind() == ErrorKind::Interrupted => continue,
            Err(e) => return Err(fault(&e)),
        };
        if n == 0 {
            return Ok(bytes);
        }
        if bytes.extend_from_slice(&buffer[..n]).is_err() {
            return Err(FileFault::Memory);
        }
        if bytes.len() > MOST {
            return Err(FileFault::Failed);
        }
    }
    Err(FileFault::Failed)
}

/// Writes the bytes into what is there and is no plain file, as a device or a pipe.
fn write_in_place(rt: &HostRuntime, name: &str, bytes: &[u8]) -> IoResult<()> {
    OpenOptions::new()
        .write(true)
        .open(rt, name)?
        .write_all(bytes)
}

/// Whether something stands under this name that is no plain file.
fn is_special(rt: &HostRuntime, name: &str) -> bool {
    match fs::metadata(rt, name) {
        Ok(old) => !old.is_file(),
        Err(_) => false,
    }
}

impl SystemFiles {
    /// The files of the system. None waits.
    pub fn new(alloc: Global) -> SystemFiles {
        SystemFiles {
            staged: Vec::new(alloc),
        }
    }

    /// Where among those that wait the one of the same place is.
    fn waiting(&self, file: &StagedFile) -> Option<usize> {
        self.staged
            .iter()
            .position(|other| other.shares_its_place(file))
    }

    /// Gives up an earlier file of the same name. One of the same place under another name is a fault.
    fn make_way(&mut self, rt: &HostRuntime, file: &StagedFile) -> Result<(), FileFault> {
        let Some(at) = self.waiting(file) else {
            return Ok(());
        };
        if at >= self.staged.len() || !self.staged[at].shares_its_name(file) {
            return Err(FileFault::Failed);
        }
        let earlier = self.staged.remove(at);
        earlier.remove(rt);
        Ok(())
    }

    /// Takes a file that waits.
    fn keep(&mut self, rt: &HostRuntime, file: StagedFile) -> Result<(), FileFault> {
        if let Err(why) = self.make_way(rt, &file) {
            file.remove(rt);
            return Err(why);
        }
        match self.staged.push(file) {
            Ok(()) => Ok(()),
            Err(failed) => {
                failed.value.remove(rt);
                Err(FileFault::Memory)
            }
        }
    }

    /// Whether a hive that needs its log, and that waits with another file, is to take the place of another such hive.
    pub(crate) fn wants_a_clean_hive(&self, rt: &HostRuntime) -> bool {
        self.staged.len() > 1 && self.staged.iter().any(|file| file.replaces_its_like(rt))
    }

    /// Stages these bytes for the place of the hive that needs its log, before all that wait.
    pub(crate) fn put_between(&mut self, rt: &HostRuntime, bytes: &[u8]) -> Result<(), FileFault> {
        let Some(hive) = self.staged.iter().find(|file| file.wants_log()) else {
            return Ok(());
        };
        let between = match stage(rt, hive.name(), bytes) {
            Ok(file) => file,
            Err(e) => return Err(fault(&e)),
        };
        match self.staged.insert(0, between) {
            Ok(()) => Ok(()),
            Err(failed) => {
                failed.value.remove(rt);
                Err(FileFault::Memory)
            }
        }
    }

    /// Gives those that wait their names: the ones that load with a log alone, or the others.
    fn name_those(&mut self, rt: &HostRuntime, wants_log: bool) -> IoResult<()> {
        for file in self.staged.iter_mut() {
            if file.wants_log() == wants_log {
                file.take_its_name(rt)?;
            }
        }
        Ok(())
    }

    /// Gives all that wait their names: a hive that needs its log comes last, so that no moment has it without.
    fn name_all(&mut self, rt: &HostRuntime) -> IoResult<()> {
        self.name_those(rt, false)?;
        self.name_those(rt, true)
    }
}

impl Files for SystemFiles {
    ghost use Rattle.std.specs.Prelude.{false, None, []};

    ghost tells = { false };

    ghost held = { λ files q. None };

    ghost standing = { λ files q. None };

    ghost said = { λ files. [] };

    ghost errors = { λ files. [] };

    fn get(&mut self, rt: &HostRuntime, name: &str) -> Result<Option<Bytes>, FileFault> {
        let mut file = match File::open(rt, name) {
            Ok(file) => file,
            Err(e) if e.kind() == ErrorKind::NotFound => return Ok(None),
            Err(e) => return Err(fault(&e)),
        };
        Ok(Some(Bytes::from_vec(read_all(rt.alloc(), &mut file)?)))
    }

    fn put(&mut self, rt: &HostRuntime, name: &str, bytes: &[u8]) -> Result<(), FileFault> {
        if is_special(rt, name) {
            return write_in_place(rt, name, bytes).map_err(|e| fault(&e));
        }
        match stage(rt, name, bytes) {
            Ok(file) => self.keep(rt, file),
            Err(e) => Err(fault(&e)),
        }
    }

    fn say(&mut self, rt: &HostRuntime, bytes: &[u8]) -> Result<(), FileFault> {
        say_out(rt, bytes)
    }

    fn say_error(&mut self, rt: &HostRuntime, bytes: &[u8]) {
        say_error_out(rt, bytes);
    }

    fn finish(&mut self, rt: &HostRuntime) -> Result<(), FileFault> {
        let done = self.name_all(rt).map_err(|e| fault(&e));
        self.abandon(rt);
        done
    }

    fn abandon(&mut self, rt: &HostRuntime) {
        for file in self.staged.iter() {
            file.remove(rt);
        }
        self.staged.clear();
    }
}
