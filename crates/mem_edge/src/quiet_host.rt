//! A host in memory that never fails but for lack of memory.

ghost use Rattle.std.specs.Prelude.{◌≡◌, ℕ, List, [], None, option_map, OnOk, OnErr};
ghost use Rattle.nt_edge.specs.Host.{IsWithinEnds, Puts};

use nt_bytes::Bytes;
use nt_edge::{Host, HostStop};
use std::alloc::{AllocError, Global};
use std::collections::BTreeMap;

/// Files and what was printed, in memory. Its counts of faults are the constant 0.
#[derive(Drop)]
pub struct QuietHost {
    alloc: Global,
    pub(crate) files: BTreeMap<String, Vec<u8>>,
    pub(crate) said: Vec<u8>,
    pub(crate) errors: Vec<u8>,
    pub(crate) warned: u64,
    pub(crate) gets: u64,
    pub(crate) lacks: u64,
    ghost ends: { IsWithinEnds 0 0 lacks },
}

impl QuietHost {
    ghost use Rattle.mem_edge.specs.Hosts.{quiet_files_of};

    /// A host with no file, to which nothing was printed. Takes no memory.
    pub fn new(alloc: Global) -> QuietHost
        ensures files { (q : List ℕ) → quiet_files_of result q ≡ None }
        ensures said { result.said.items ≡ [] }
        ensures errors { result.errors.items ≡ [] }
    {
        QuietHost {
            alloc,
            files: BTreeMap::new(alloc),
            said: Vec::new(alloc),
            errors: Vec::new(alloc),
            warned: 0,
            gets: 0,
            lacks: 0,
        }
    }

    /// Gives the file these bytes. A refusal leaves all the files as they were.
    pub fn add(&mut self, name: &str, bytes: &[u8]) -> Result<(), AllocError>
        ensures put { OnOk result (Puts (quiet_files_of self.old) (quiet_files_of self.new) name.now bytes.now) }
        ensures same { OnErr result (quiet_files_of self.new ≡ quiet_files_of self.old) }
        ensures said { self.new.said ≡ self.old.said }
        ensures errors { self.new.errors ≡ self.old.errors }
        ensures warned { self.new.warned ≡ self.old.warned }
        ensures gets { self.new.gets ≡ self.old.gets }
        ensures lacks { self.new.lacks ≡ self.old.lacks }
    {
        let name = String::from_str(self.alloc, name)?;
        let bytes = Vec::from_slice(self.alloc, bytes)?;
        self.files.insert(name, bytes)?;
        Ok(())
    }

    /// What was printed so far.
    pub fn said(&self) -> &[u8]
        ensures { result.now ≡ self.now.said.items }
    {
        self.said.as_slice()
    }

    /// What was printed on standard error so far.
    pub fn errors(&self) -> &[u8]
        ensures { result.now ≡ self.now.errors.items }
    {
        self.errors.as_slice()
    }

    /// The bytes of the file, or none exactly where there is no such file.
    pub fn file(&self, name: &str) -> Option<&[u8]>
        ensures { option_map (λ bytes. bytes.now) result ≡ quiet_files_of self.now name.now }
    {
        match self.files.get(name) {
            None => None,
            Some(bytes) => Some(bytes.as_slice()),
        }
    }
}

impl Host for QuietHost {
    ghost use Rattle.mem_edge.specs.Hosts.{quiet_host_of, quiet_law};

    ghost state = { quiet_host_of };

    fn get(&mut self, name: &str) -> Result<Option<Bytes>, HostStop> {
        self.gets = self.gets.saturating_add(1);
        match self.files.get(name) {
            None => Ok(None),
            Some(bytes) => match Bytes::from_slice(self.alloc, bytes) {
                Ok(bytes) => Ok(Some(bytes)),
                Err(_) => {
                    self.lacks = self.lacks.saturating_add(1);
                    Err(HostStop::Memory)
                }
            },
        }
    }

    fn put(&mut self, name: &str, bytes: &[u8]) -> Result<(), HostStop> {
        match self.add(name, bytes) {
            Ok(()) => Ok(()),
            Err(_) => {
                self.lacks = self.lacks.saturating_add(1);
                Err(HostStop::Memory)
            }
        }
    }

    fn say(&mut self, bytes: &[u8]) -> Result<(), HostStop> {
        match self.said.extend_from_slice(bytes) {
            Ok(()) => Ok(()),
            Err(_) => {
                self.lacks = self.lacks.saturating_add(1);
                Err(HostStop::Memory)
            }
        }
    }

    fn say_error(&mut self, bytes: &[u8]) {
        self.warned = self.warned.saturating_add(1);
        let _unsaid = self.errors.extend_from_slice(bytes);
    }

    ghost bounded = { quiet_law };
}
