//! The host over files and standard output.

ghost use Rattle.std.specs.Prelude.{◌≡◌, true, OnOk, IsErrOf};
ghost use Rattle.nt_bytes.specs.Counts.{Rises};
ghost use Rattle.nt_edge.specs.Host.{IsWithinEnds};
ghost use Rattle.nt_edge.specs.declared.host.HostStop.TheVariants.{Read, Write, Memory};

use crate::files::{FileFault, Files};
use crate::system_files::SystemFiles;
use nt_bytes::Bytes;
use nt_edge::{Host, HostStop};
use std::alloc::Global;

/// Files, and standard output.
#[derive(Drop)]
pub struct StandardHost<'a, F> {
    rt: &'a HostRuntime,
    files: F,
    warned: u64,
    gets: u64,
    reads: u64,
    writes: u64,
    lacks: u64,
    ghost ends: { IsWithinEnds reads writes lacks },
}

impl<'a, F: Files + Drop> StandardHost<'a, F> {
    /// The host over these files. Nothing is counted yet.
    pub fn new(rt: &'a HostRuntime, files: F) -> StandardHost<'a, F>
        ensures files { result.files ≡ files }
        ensures warned { result.warned ≡ 0 }
        ensures gets { result.gets ≡ 0 }
        ensures reads { result.reads ≡ 0 }
        ensures writes { result.writes ≡ 0 }
        ensures lacks { result.lacks ≡ 0 }
    {
        StandardHost {
            rt,
            files,
            warned: 0,
            gets: 0,
            reads: 0,
            writes: 0,
            lacks: 0,
        }
    }

    /// Gives the files that were put their names. After a refusal some of them may have theirs.
    pub fn finish(&mut self) -> Result<(), HostStop>
        ensures same { F.tells ≡ true → OnOk result (F.held self.new.files ≡ F.held self.old.files) }
        ensures stands { F.tells ≡ true → OnOk result (F.standing self.new.files ≡ F.held self.old.files) }
        ensures unsaid { F.tells ≡ true → F.said self.new.files ≡ F.said self.old.files }
        ensures errors { F.errors self.new.files ≡ F.errors self.old.files }
        ensures warned { self.new.warned ≡ self.old.warned }
        ensures gets { self.new.gets ≡ self.old.gets }
        ensures fault { IsErrOf result Write → Rises self.old.writes self.new.writes }
        ensures lack { IsErrOf result Memory → Rises self.old.lacks self.new.lacks }
        ensures counted { OnOk result (self.new.writes ≡ self.old.writes) }
        ensures unread { IsErrOf result Read → ⊥ }
    {
        let (_reads, _writes, _lacks) = (self.reads, self.writes, self.lacks);
        match self.files.finish(self.rt) {
            Ok(()) => Ok(()),
            Err(FileFault::Memory) => {
                self.lacks = self.lacks.saturating_add(1);
                Err(HostStop::Memory)
            }
            Err(FileFault::Failed) => {
                self.writes = self.writes.saturating_add(1);
                Err(HostStop::Write)
            }
        }
    }

    /// Gives up the files that were put and have not got their names.
    pub fn abandon(&mut self)
        ensures given_up { F.tells ≡ true → F.held self.new.files ≡ F.standing self.old.files }
        ensures stands { F.tells ≡ true → F.standing self.new.files ≡ F.standing self.old.files }
        ensures unsaid { F.tells ≡ true → F.said self.new.files ≡ F.said self.old.files }
        ensures errors { F.errors self.new.files ≡ F.errors self.old.files }
        ensures writes { self.new.writes ≡ self.old.writes }
    {
        let (_reads, _writes, _lacks) = (self.reads, self.writes, self.lacks);
        self.files.abandon(self.rt);
    }
}

impl StandardHost<'_, SystemFiles> {
    /// Whether a hive that needs its log, and that is put with another file, is to take the place of another such hive.
    pub fn wants_a_clean_hive(&self) -> bool {
        self.files.wants_a_clean_hive(self.rt)
    }

    /// Puts these bytes in the place of the hive that needs its log, to stand there before any other file has its name.
    pub fn put_between(&mut self, bytes: &[u8]) -> Result<(), HostStop>
        ensures fault { IsErrOf result Write → Rises self.old.writes self.new.writes }
        ensures lack { IsErrOf result Memory → Rises self.old.lacks self.new.lacks }
        ensures counted { OnOk result (self.new.writes ≡ self.old.writes) }
        ensures unread { IsErrOf result Read → ⊥ }
    {
        let (_reads, _writes, _lacks) = (self.reads, self.writes, self.lacks);
        match self.files.put_between(self.rt, bytes) {
            Ok(()) => Ok(()),
            Err(FileFault::Memory) => {
                self.lacks = self.lacks.saturating_add(1);
                Err(HostStop::Memory)
            }
            Err(FileFault::Failed) => {
                self.writes = self.writes.saturating_add(1);
                Err(HostStop::Write)
            }
        }
    }
}

impl<F: Files + Drop> Host for StandardHost<'_, F> {
    ghost use Rattle.std.specs.Prelude.{false};

    ghost state = { λ h. record {
      tells = F.tells;
      quiet = false;
      files = F.held h.files;
      said = F.said h.files;
      errors = F.errors h.files;
      warned = h.warned;
      gets = h.gets;
      reads = h.reads;
      writes = h.writes;
      lacks = h.lacks;
    } };

    ghost bounded = { λ h. h.ends };

    fn get(&mut self, name: &str) -> Result<Option<Bytes>, HostStop> {
        let (_reads, _writes, _lacks) = (self.reads, self.writes, self.lacks);
        self.gets = self.gets.saturating_add(1);
        match self.files.get(self.rt, name) {
            Ok(found) => Ok(found),
            Err(FileFault::Memory) => {
                self.lacks = self.lacks.saturating_add(1);
                Err(HostStop::Memory)
            }
            Err(FileFault::Failed) => {
                self.reads = self.reads.saturating_add(1);
                Err(HostStop::Read)
            }
        }
    }

    fn put(&mut self, name: &str, bytes: &[u8]) -> Result<(), HostStop> {
        let (_reads, _writes, _lacks) = (self.reads, self.writes, self.lacks);
        match self.files.put(self.rt, name, bytes) {
            Ok(()) => Ok(()),
            Err(FileFault::Memory) => {
                self.lacks = self.lacks.saturating_add(1);
                Err(HostStop::Memory)
            }
            Err(FileFault::Failed) => {
                self.writes = self.writes.saturating_add(1);
                Err(HostStop::Write)
            }
        }
    }

    fn say(&mut self, bytes: &[u8]) -> Result<(), HostStop> {
        let (_reads, _writes, _lacks) = (self.reads, self.writes, self.lacks);
        match self.files.say(self.rt, bytes) {
            Ok(()) => Ok(()),
            Err(FileFault::Memory) => {
                self.lacks = self.lacks.saturating_add(1);
                Err(HostStop::Memory)
            }
            Err(FileFault::Failed) => {
                self.writes = self.writes.saturating_add(1);
                Err(HostStop::Write)
            }
        }
    }

    fn say_error(&mut self, bytes: &[u8]) {
        self.warned = self.warned.saturating_add(1);
        self.files.say_error(self.rt, bytes);
    }
}
