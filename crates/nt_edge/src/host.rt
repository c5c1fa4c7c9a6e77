//! A host of files, to which a report is printed.

ghost use Rattle.std.specs.Prelude.{◌≡◌, ◌++◌, true, IfOk, OnOk, OnErr, IsErrOf};
ghost use Rattle.nt_edge.specs.Host.{HostState, Puts, KeepsOthers, KeepsHost, KeepsFiles, IsUnsaid, Asks, AsksNone, Warns, SaysFront, SaysError, CountsFault, CountsLack, IsWithinEnds};
ghost use Rattle.nt_edge.specs.declared.host.HostStop.TheVariants.{Read, Write};

use nt_bytes::Bytes;

/// Why a host refused a call.
#[derive(Clone, Copy, Debug, PartialEq, Eq)]
pub enum HostStop {
    /// A file could not be read. The host's count of read faults rose.
    Read,
    /// A file could not be written, or something not be said. The host's count of write faults rose.
    Write,
    /// There was no memory. The host's count of such refusals rose.
    Memory,
}

/// Files by name, and a place where bytes are printed. A count of faults, or of refusals for lack of memory, rises with its own
/// answer and stays with every other; it ends at 18,446,744,073,709,551,615 and stays there.
pub trait Host {
    /// What the host is at a moment. No call changes whether it reports its files and what was printed to it, and one
    /// that is quiet stays quiet; only `say_error` says anything on standard error.
    ghost state: { Self → HostState };

    /// The bytes of the file, or none exactly where there is no such file.
    fn get(&mut self, name: &str) -> Result<Option<Bytes>, HostStop>
        ensures found { (state self.old).tells ≡ true → IfOk result (λ found. found ≡ (state self.old).files name.now) }
        ensures keeps { KeepsHost (state self.old) (state self.new) }
        ensures files { KeepsFiles (state self.old) (state self.new) }
        ensures unsaid { IsUnsaid (state self.old) (state self.new) }
        ensures asks { Asks (state self.old) (state self.new) }
        ensures counts { CountsFault result (state self.old) (state self.new) }
        ensures lacks { CountsLack result (state self.old) (state self.new) }
        ensures never_write { IsErrOf result Write → ⊥ };

    /// Gives the file these bytes. A refusal says nothing of this one file and leaves the others.
    fn put(&mut self, name: &str, bytes: &[u8]) -> Result<(), HostStop>
        ensures keeps { KeepsHost (state self.old) (state self.new) }
        ensures put { (state self.old).tells ≡ true → OnOk result
            (Puts (state self.old).files (state self.new).files name.now bytes.now) }
        ensures others { (state self.old).tells ≡ true → OnErr result
            (KeepsOthers (state self.old).files (state self.new).files name.now) }
        ensures unsaid { IsUnsaid (state self.old) (state self.new) }
        ensures unasked { AsksNone (state self.old) (state self.new) }
        ensures counts { CountsFault result (state self.old) (state self.new) }
        ensures lacks { CountsLack result (state self.old) (state self.new) }
        ensures never_read { IsErrOf result Read → ⊥ };

    /// Appends the bytes to what was printed. After a refusal a prefix of them was printed.
    fn say(&mut self, bytes: &[u8]) -> Result<(), HostStop>
        ensures said { (state self.old).tells ≡ true → OnOk result
            ((state self.new).said ≡ (state self.old).said ++ bytes.now) }
        ensures front { (state self.old).tells ≡ true → OnErr result
            (SaysFront (state self.old).said (state self.new).said bytes.now) }
        ensures keeps { KeepsHost (state self.old) (state self.new) }
        ensures files { KeepsFiles (state self.old) (state self.new) }
        ensures unasked { AsksNone (state self.old) (state self.new) }
        ensures counts { CountsFault result (state self.old) (state self.new) }
        ensures lacks { CountsLack result (state self.old) (state self.new) }
        ensures never_read { IsErrOf result Read → ⊥ };

    /// Says a text on standard error, where that can be done. It counts the text, and leaves what was printed, the files and all other
    /// counts as they were.
    fn say_error(&mut self, bytes: &[u8])
        ensures said { (state self.old).tells ≡ true → SaysError (state self.old) (state self.new) bytes.now }
        ensures warns { Warns (state self.old) (state self.new) }
        ensures same { state self.new ≡ record (state self.old) { errors = (state self.new).errors; warned = (state self.new).warned } };

    /// None of these counts is ever past its end.
    ghost bounded: { (host : Self) → IsWithinEnds (state host).reads (state host).writes (state host).lacks };
}
