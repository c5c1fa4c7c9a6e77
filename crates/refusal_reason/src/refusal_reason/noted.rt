//! A host that notes what a refusal is about.

ghost use Rattle.std.specs.Prelude.{◌≡◌, [], map, true};
ghost use Rattle.refusal_reason.specs.refusal_reason.Notes.{IsNoted};

use crate::refusal_reason::notes::Notes;
use nt_bytes::Bytes;
use nt_edge::{Host, HostStop};
use std::alloc::Global;

/// A host that does what the host in it does, and notes what a refusal is about. Where it has no memory for that, it does the same and notes less.
#[derive(Drop)]
pub struct Noted<'w, H: Host> {
    host: H,
    words: &'w [&'w str],
    notes: Notes,
    ghost noted: { IsNoted (map (λ w. w.now) words.now) (H.state host) notes },
}

impl<'w, H: Host + Drop> Noted<'w, H> {
    /// The host, to which nothing was printed yet, for the command line of these words.
    pub fn new(alloc: Global, host: H, words: &'w [&'w str]) -> Noted<'w, H>
        requires { (H.state host).tells ≡ true → (H.state host).said ≡ [] }
        ensures host { result.host ≡ host }
        ensures words { result.words.now ≡ words.now }
    {
        Noted {
            host,
            words,
            notes: Notes::new(alloc, words),
        }
    }

    /// The host, the command line, and what was noted of the calls so far.
    pub fn into_parts(self) -> (H, &'w [&'w str], Notes)
        ensures noted { IsNoted (map (λ w. w.now) result.1.now) (H.state result.0) result.2 }
        ensures host { result.0 ≡ self.entry.host }
    {
        (self.host, self.words, self.notes)
    }
}

impl<H: Host + Drop> Host for Noted<'_, H> {
    ghost use Rattle.std.specs.Prelude.{◌++◌, IfOk, IsErrOf, OnErr, OnOk, is_err};
    ghost use Rattle.nt_edge.specs.Host.{Asks, AsksNone, CountsFault, CountsLack, IsUnsaid, KeepsFiles, KeepsHost, KeepsOthers, Puts, SaysFront};
    ghost use Rattle.nt_edge.specs.declared.host.HostStop.TheVariants.{Read, Write};
    ghost use Rattle.refusal_reason.specs.refusal_reason.Notes.{with_got, with_put, IsSaid};

    ghost state = { λ noted. H.state noted.host };

    ghost bounded = { λ noted. H.bounded noted.host };

    fn get(&mut self, name: &str) -> Result<Option<Bytes>, HostStop>
        ensures found { (H.state self.old.host).tells ≡ true → IfOk result (λ found. found ≡ (H.state self.old.host).files name.now) }
        ensures keeps { KeepsHost (H.state self.old.host) (H.state self.new.host) }
        ensures files { KeepsFiles (H.state self.old.host) (H.state self.new.host) }
        ensures unsaid { IsUnsaid (H.state self.old.host) (H.state self.new.host) }
        ensures asks { Asks (H.state self.old.host) (H.state self.new.host) }
        ensures counts { CountsFault result (H.state self.old.host) (H.state self.new.host) }
        ensures lacks { CountsLack result (H.state self.old.host) (H.state self.new.host) }
        ensures never_write { IsErrOf result Write → ⊥ }
        ensures noted { self.new.notes ≡ with_got (map (λ w. w.now) self.old.words.now) self.old.notes name.now result }
    {
        let found = self.host.get(name);
        self.notes.get(self.words, name, &found);
        found
    }

    fn put(&mut self, name: &str, bytes: &[u8]) -> Result<(), HostStop>
        ensures keeps { KeepsHost (H.state self.old.host) (H.state self.new.host) }
        ensures put { (H.state self.old.host).tells ≡ true → OnOk result
            (Puts (H.state self.old.host).files (H.state self.new.host).files name.now bytes.now) }
        ensures others { (H.state self.old.host).tells ≡ true → OnErr result
            (KeepsOthers (H.state self.old.host).files (H.state self.new.host).files name.now) }
        ensures unsaid { IsUnsaid (H.state self.old.host) (H.state self.new.host) }
        ensures unasked { AsksNone (H.state self.old.host) (H.state self.new.host) }
        ensures counts { CountsFault result (H.state self.old.host) (H.state self.new.host) }
        ensures lacks { CountsLack result (H.state self.old.host) (H.state self.new.host) }
        ensures never_read { IsErrOf result Read → ⊥ }
        ensures noted { self.new.notes ≡ with_put (map (λ w. w.now) self.old.words.now) self.old.notes name.now (is_err result) }
    {
        let put = self.host.put(name, bytes);
        self.notes.put(self.words, name, put.is_err());
        put
    }

    fn say(&mut self, bytes: &[u8]) -> Result<(), HostStop>
        ensures said { (H.state self.old.host).tells ≡ true → OnOk result
            ((H.state self.new.host).said ≡ (H.state self.old.host).said ++ bytes.now) }
        ensures front { (H.state self.old.host).tells ≡ true → OnErr result
            (SaysFront (H.state self.old.host).said (H.state self.new.host).said bytes.now) }
        ensures keeps { KeepsHost (H.state self.old.host) (H.state self.new.host) }
        ensures files { KeepsFiles (H.state self.old.host) (H.state self.new.host) }
        ensures unasked { AsksNone (H.state self.old.host) (H.state self.new.host) }
        ensures counts { CountsFault result (H.state self.old.host) (H.state self.new.host) }
        ensures lacks { CountsLack result (H.state self.old.host) (H.state self.new.host) }
        ensures never_read { IsErrOf result Read → ⊥ }
        ensures noted { IsSaid (is_err result) self.old.notes bytes.now self.new.notes }
    {
        let said = self.host.say(bytes);
        self.notes.say(bytes, said.is_err());
        said
    }

    fn say_error(&mut self, bytes: &[u8]) {
        self.host.say_error(bytes);
    }
}
