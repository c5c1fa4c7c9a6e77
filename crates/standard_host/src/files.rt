//! What a host stands on: files by their names, standard output and standard error.

ghost use Rattle.std.specs.Prelude.{◌≡◌, ◌⊎◌, ◌++◌, Bool, true, List, ℕ, IfOk, OnOk, OnErr};
ghost use Rattle.nt_edge.specs.Host.{Files as Held, Puts, KeepsOthers, SaysFront};

use crate::output::{say_error_out, say_out};
use nt_bytes::Bytes;
use std::alloc::Global;

/// Why a file was not read or not put, or a text not said.
#[derive(Clone, Copy, Debug, PartialEq, Eq)]
pub enum FileFault {
    /// A call of the system failed, or the file is too long.
    Failed,
    /// There was no memory.
    Memory,
}

/// Files by their names, and where a text is printed. One that reports is known by what it holds and what was printed to it; of one that
/// does not, as those of the system, nothing is promised.
///
/// A file that is put may wait: it stands under its name once `finish` is done.
pub trait Files {
    /// Whether it shows what its files are and what was printed to it.
    ghost tells: { Bool };

    /// The files, those that wait among them.
    ghost held: { Self → Held };

    /// The files that have their names: what a name would lead to if all that wait were given up.
    ghost standing: { Self → Held };

    /// What was printed on standard output so far.
    ghost said: { Self → List ℕ };

    /// What was printed on standard error so far; nothing, of one that does not tell.
    ghost errors: { Self → List ℕ };

    /// The bytes of a file, or none exactly where it is absent.
    fn get(&mut self, rt: &HostRuntime, name: &str) -> Result<Option<Bytes>, FileFault>
        ensures found { tells ≡ true → IfOk result (λ found. found ≡ held self.old name.now) }
        ensures same { tells ≡ true → held self.new ≡ held self.old }
        ensures stands { tells ≡ true → standing self.new ≡ standing self.old }
        ensures unsaid { tells ≡ true → said self.new ≡ said self.old }
        ensures errors { errors self.new ≡ errors self.old };

    /// Gives the file of this name these bytes. A refusal says nothing of this one file and leaves the others.
    fn put(&mut self, rt: &HostRuntime, name: &str, bytes: &[u8]) -> Result<(), FileFault>
        ensures put { tells ≡ true → OnOk result (Puts (held self.old) (held self.new) name.now bytes.now) }
        ensures others { tells ≡ true → OnErr result (KeepsOthers (held self.old) (held self.new) name.now) }
        ensures stand { tells ≡ true → KeepsOthers (standing self.old) (standing self.new) name.now }
        ensures unsaid { tells ≡ true → said self.new ≡ said self.old }
        ensures errors { errors self.new ≡ errors self.old };

    /// Says the bytes on standard output. After a refusal a prefix of them was printed.
    fn say(&mut self, rt: &HostRuntime, bytes: &[u8]) -> Result<(), FileFault>
        ensures said { tells ≡ true → OnOk result (said self.new ≡ said self.old ++ bytes.now) }
        ensures front { tells ≡ true → OnErr result (SaysFront (said self.old) (said self.new) bytes.now) }
        ensures same { tells ≡ true → held self.new ≡ held self.old }
        ensures stands { tells ≡ true → standing self.new ≡ standing self.old }
        ensures errors { errors self.new ≡ errors self.old };

    /// Says the bytes on standard error, where that can be done.
    fn say_error(&mut self, rt: &HostRuntime, bytes: &[u8])
        ensures errors { tells ≡ true → (errors self.new ≡ errors self.old ++ bytes.now) ⊎ (errors self.new ≡ errors self.old) }
        ensures unsaid { said self.new ≡ said self.old }
        ensures same { held self.new ≡ held self.old }
        ensures stands { standing self.new ≡ standing self.old };

    /// Gives each file that waits its name. After a refusal some of them may have it.
    fn finish(&mut self, rt: &HostRuntime) -> Result<(), FileFault>
        ensures same { tells ≡ true → OnOk result (held self.new ≡ held self.old) }
        ensures stands { tells ≡ true → OnOk result (standing self.new ≡ held self.old) }
        ensures unsaid { tells ≡ true → said self.new ≡ said self.old }
        ensures errors { errors self.new ≡ errors self.old };

    /// Gives up each file that waits, so that its name has what it had.
    fn abandon(&mut self, rt: &HostRuntime)
        ensures given_up { tells ≡ true → held self.new ≡ standing self.old }
        ensures stands { tells ≡ true → standing self.new ≡ standing self.old }
        ensures unsaid { tells ≡ true → said self.new ≡ said self.old }
        ensures errors { errors self.new ≡ errors self.old };
}

/// None: no file is there, and none can be put. Texts are printed on the standard output and the standard error of the program.
#[derive(Clone, Copy, Debug, Drop)]
pub struct NoFiles;

impl Files for NoFiles {
    ghost use Rattle.std.specs.Prelude.{false, None, []};

    ghost tells = { false };

    ghost held = { λ files q. None };

    ghost standing = { λ files q. None };

    ghost said = { λ files. [] };

    ghost errors = { λ files. [] };

    fn get(&mut self, _rt: &HostRuntime, _name: &str) -> Result<Option<Bytes>, FileFault> {
        Ok(None)
    }

    fn put(&mut self, _rt: &HostRuntime, _name: &str, _bytes: &[u8]) -> Result<(), FileFault> {
        Err(FileFault::Failed)
    }

    fn say(&mut self, rt: &HostRuntime, bytes: &[u8]) -> Result<(), FileFault> {
        say_out(rt, bytes)
    }

    fn say_error(&mut self, rt: &HostRuntime, bytes: &[u8]) {
        say_error_out(rt, bytes);
    }

    fn finish(&mut self, _rt: &HostRuntime) -> Result<(), FileFault> {
        Ok(())
    }

    fn abandon(&mut self, _rt: &HostRuntime) {}
}
