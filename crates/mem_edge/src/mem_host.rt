//! A host in memory that can be reported to fail.

ghost use Rattle.std.specs.Prelude.{◌≡◌, ◌-◌, ◌↔◌, IsTrue};
ghost use Rattle.nt_edge.specs.Host.{IsWithinEnds};

use nt_bytes::Bytes;
use nt_edge::{Host, HostStop};
use std::alloc::{AllocError, Global};
use std::collections::BTreeMap;

/// Files and what was printed, in memory. It fails where it was reported to, and nowhere else but for
/// lack of memory.
#[derive(Drop)]
pub struct MemHost {
    alloc: Global,
    pub(crate) files: BTreeMap<String, Vec<u8>>,
    pub(crate) said: Vec<u8>,
    pub(crate) errors: Vec<u8>,
    pub(crate) warned: u64,
    pub(crate) gets: u64,
    pub(crate) reads: u64,
    pub(crate) writes: u64,
    pub(crate) lacks: u64,
    // how many calls are still to come until the one that fails, that one among them; 0: none is to fail
    pub(crate) fail_read: u64,
    pub(crate) fail_write: u64,
    ghost ends: { IsWithinEnds reads writes lacks },
}

impl MemHost {
    ghost use Rattle.std.specs.Prelude.{◌≡◌, ◌≤◌, ℕ, List, [], None, option_map, OnOk, OnErr};
    ghost use Rattle.nt_edge.specs.Host.{Puts};
    ghost use Rattle.mem_edge.specs.Hosts.{files_of};

    /// A host with no file, to which nothing was printed, and whose counts are zero. Takes no memory.
    pub fn new(alloc: Global) -> MemHost
        ensures files { (q : List ℕ) → files_of result q ≡ None }
        ensures said { result.said.items ≡ [] }
        ensures errors { result.errors.items ≡ [] }
        ensures warned { result.warned ≡ 0 }
        ensures gets { result.gets ≡ 0 }
        ensures reads { result.reads ≡ 0 }
        ensures writes { result.writes ≡ 0 }
        ensures lacks { result.lacks ≡ 0 }
        ensures no_read { result.fail_read ≡ 0 }
        ensures no_write { result.fail_write ≡ 0 }
    {
        MemHost {
            alloc,
            files: BTreeMap::new(alloc),
            said: Vec::new(alloc),
            errors: Vec::new(alloc),
            warned: 0,
            gets: 0,
            reads: 0,
            writes: 0,
            lacks: 0,
            fail_read: 0,
            fail_write: 0,
        }
    }

    /// Gives the file these bytes. A refusal leaves all the files as they were.
    pub fn add(&mut self, name: &str, bytes: &[u8]) -> Result<(), AllocError>
        ensures put { OnOk result (Puts (files_of self.old) (files_of self.new) name.now bytes.now) }
        ensures same { OnErr result (files_of self.new ≡ files_of self.old) }
        ensures said { self.new.said ≡ self.old.said }
        ensures errors { self.new.errors ≡ self.old.errors }
        ensures warned { self.new.warned ≡ self.old.warned }
        ensures gets { self.new.gets ≡ self.old.gets }
        ensures reads { self.new.reads ≡ self.old.reads }
        ensures writes { self.new.writes ≡ self.old.writes }
        ensures lacks { self.new.lacks ≡ self.old.lacks }
        ensures fail_read { self.new.fail_read ≡ self.old.fail_read }
        ensures fail_write { self.new.fail_write ≡ self.old.fail_write }
    {
        let name = String::from_str(self.alloc, name)?;
        let bytes = Vec::from_slice(self.alloc, bytes)?;
        self.files.insert(name, bytes)?;
        Ok(())
    }

    /// Lets the n-th `get` from now on fail, n from 1, in place of one that was to fail before.
    pub fn fail_read(&mut self, n: u64)
        requires { 1 ≤ n }
        ensures next { self.new.fail_read ≡ n }
        ensures other { self.new.fail_write ≡ self.old.fail_write }
        ensures files { self.new.files ≡ self.old.files }
        ensures said { self.new.said ≡ self.old.said }
        ensures errors { self.new.errors ≡ self.old.errors }
        ensures warned { self.new.warned ≡ self.old.warned }
        ensures gets { self.new.gets ≡ self.old.gets }
        ensures reads { self.new.reads ≡ self.old.reads }
        ensures writes { self.new.writes ≡ self.old.writes }
        ensures lacks { self.new.lacks ≡ self.old.lacks }
    {
        self.fail_read = n;
    }

    /// Lets the n-th call from now on that is a `put` or a `say` fail, n from 1, in place of one
    /// that was to fail before.
    pub fn fail_write(&mut self, n: u64)
        requires { 1 ≤ n }
        ensures next { self.new.fail_write ≡ n }
        ensures other { self.new.fail_read ≡ self.old.fail_read }
        ensures files { self.new.files ≡ self.old.files }
        ensures said { self.new.said ≡ self.old.said }
        ensures errors { self.new.errors ≡ self.old.errors }
        ensures warned { self.new.warned ≡ self.old.warned }
        ensures gets { self.new.gets ≡ self.old.gets }
        ensures reads { self.new.reads ≡ self.old.reads }
        ensures writes { self.new.writes ≡ self.old.writes }
        ensures lacks { self.new.lacks ≡ self.old.lacks }
    {
        self.fail_write = n;
    }

    /// What was printed so far.
    pub fn said(&self) -> &[u8]
        ensures { result.now ≡ self.now.said.items }
    {
        self.said.as_slice()
    }

    /// What was printed on standard error so far.
    pub fn errors(&self) -> &[u8]
        ensures { result.now ≡ self.now.errors.items }
    {
        self.errors.as_slice()
    }

    /// The bytes of the file, or none exactly where there is no such file.
    pub fn file(&self, name: &str) -> Option<&[u8]>
        ensures { option_map (λ bytes. bytes.now) result ≡ files_of self.now name.now }
    {
        match self.files.get(name) {
            None => None,
            Some(bytes) => Some(bytes.as_slice()),
        }
    }

    /// How many calls of `get` failed so far.
    pub fn reads(&self) -> u64
        ensures { result ≡ self.now.reads }
    {
        self.reads
    }

    /// How many calls of `put` and `say` failed so far.
    pub fn writes(&self) -> u64
        ensures { result ≡ self.now.writes }
    {
        self.writes
    }

    /// How many calls of `get`, `put` and `say` were refused for lack of memory so far.
    pub fn lacks(&self) -> u64
        ensures { result ≡ self.now.lacks }
    {
        self.lacks
    }
}

/// Counts a call, and shows whether it is the one that fails.
fn is_due(left: &mut u64) -> bool
    ensures due { IsTrue result ↔ (left.old ≡ 1) }
    ensures counted { left.new ≡ left.old - 1 }
{
    if *left == 0 {
        return false;
    }
    *left -= 1;
    *left == 0
}

impl Host for MemHost {
    ghost use Rattle.std.specs.Prelude.{◌≡◌, ◌++◌, true, IfOk, OnOk, OnErr, IsErrOf};
    ghost use Rattle.nt_edge.specs.Host.{Puts, KeepsOthers, KeepsHost, KeepsFiles, IsUnsaid, Asks, AsksNone, Warns, SaysFront, SaysError, CountsFault, CountsLack};
    ghost use Rattle.nt_edge.specs.declared.host.HostStop.TheVariants.{Read, Write};
    ghost use Rattle.mem_edge.specs.Hosts.{host_of, FailsRead, FailsWrite, ends_law};

    ghost state = { host_of };

    fn get(&mut self, name: &str) -> Result<Option<Bytes>, HostStop>
        ensures found { (host_of self.old).tells ≡ true → IfOk result (λ found. found ≡ (host_of self.old).files name.now) }
        ensures keeps { KeepsHost (host_of self.old) (host_of self.new) }
        ensures files { KeepsFiles (host_of self.old) (host_of self.new) }
        ensures unsaid { IsUnsaid (host_of self.old) (host_of self.new) }
        ensures asks { Asks (host_of self.old) (host_of self.new) }
        ensures counts { CountsFault result (host_of self.old) (host_of self.new) }
        ensures lacks { CountsLack result (host_of self.old) (host_of self.new) }
        ensures never_write { IsErrOf result Write → ⊥ }
        ensures fails { FailsRead result self.old self.new }
    {
        self.gets = self.gets.saturating_add(1);
        if is_due(&mut self.fail_read) {
            self.reads = self.reads.saturating_add(1);
            return Err(HostStop::Read);
        }
        match self.files.get(name) {
            None => Ok(None),
            Some(bytes) => match Bytes::from_slice(self.alloc, bytes) {
                Ok(bytes) => Ok(Some(bytes)),
                Err(_) => {
                    self.lacks = self.lacks.saturating_add(1);
                    Err(HostStop::Memory)
                }
            },
        }
    }

    fn put(&mut self, name: &str, bytes: &[u8]) -> Result<(), HostStop>
        ensures keeps { KeepsHost (host_of self.old) (host_of self.new) }
        ensures put { (host_of self.old).tells ≡ true → OnOk result
            (Puts (host_of self.old).files (host_of self.new).files name.now bytes.now) }
        ensures others { (host_of self.old).tells ≡ true → OnErr result
            (KeepsOthers (host_of self.old).files (host_of self.new).files name.now) }
        ensures unsaid { IsUnsaid (host_of self.old) (host_of self.new) }
        ensures unasked { AsksNone (host_of self.old) (host_of self.new) }
        ensures counts { CountsFault result (host_of self.old) (host_of self.new) }
        ensures lacks { CountsLack result (host_of self.old) (host_of self.new) }
        ensures never_read { IsErrOf result Read → ⊥ }
        ensures fails { FailsWrite result self.old self.new }
    {
        if is_due(&mut self.fail_write) {
            self.writes = self.writes.saturating_add(1);
            return Err(HostStop::Write);
        }
        match self.add(name, bytes) {
            Ok(()) => Ok(()),
            Err(_) => {
                self.lacks = self.lacks.saturating_add(1);
                Err(HostStop::Memory)
            }
        }
    }

    fn say(&mut self, bytes: &[u8]) -> Result<(), HostStop>
        ensures said { (host_of self.old).tells ≡ true → OnOk result
            ((host_of self.new).said ≡ (host_of self.old).said ++ bytes.now) }
        ensures front { (host_of self.old).tells ≡ true → OnErr result
            (SaysFront (host_of self.old).said (host_of self.new).said bytes.now) }
        ensures keeps { KeepsHost (host_of self.old) (host_of self.new) }
        ensures files { KeepsFiles (host_of self.old) (host_of self.new) }
        ensures unasked { AsksNone (host_of self.old) (host_of self.new) }
        ensures counts { CountsFault result (host_of self.old) (host_of self.new) }
        ensures lacks { CountsLack result (host_of self.old) (host_of self.new) }
        ensures never_read { IsErrOf result Read → ⊥ }
        ensures fails { FailsWrite result self.old self.new }
    {
        if is_due(&mut self.fail_write) {
            self.writes = self.writes.saturating_add(1);
            return Err(HostStop::Write);
        }
        match self.said.extend_from_slice(bytes) {
            Ok(()) => Ok(()),
            Err(_) => {
                self.lacks = self.lacks.saturating_add(1);
                Err(HostStop::Memory)
            }
        }
    }

    fn say_error(&mut self, bytes: &[u8])
        ensures said { (host_of self.old).tells ≡ true → SaysError (host_of self.old) (host_of self.new) bytes.now }
        ensures warns { Warns (host_of self.old) (host_of self.new) }
        ensures same { host_of self.new ≡ record (host_of self.old) { errors = (host_of self.new).errors; warned = (host_of self.new).warned } }
        ensures due_read { self.new.fail_read ≡ self.old.fail_read }
        ensures due_write { self.new.fail_write ≡ self.old.fail_write }
    {
        self.warned = self.warned.saturating_add(1);
        let _unsaid = self.errors.extend_from_slice(bytes);
    }

    ghost bounded = { ends_law };
}
