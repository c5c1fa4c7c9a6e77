//! A disk of sectors, as the code above sees it: what is on it, and what is still in flight.

ghost use Rattle.std.specs.Prelude.{◌≡◌, ◌⊎◌, Bool, true, false, List, Some, None, ◌++◌, [], ◌∷◌, OnOk, OnErr, IsErrOf};
ghost use Rattle.hive_model.specs.Image.{Bytes, Unreadable, same_address};
ghost use Rattle.nt_edge.specs.Calls.{Made, ReadAt, Wrote, Synced, Makes};
ghost use Rattle.nt_edge.specs.Disk.{DiskState, now_of, CountsGrow, HasCause, IsOnUnlessLost, IsBounded};
ghost use Rattle.nt_edge.specs.declared.disk.DiskStop.TheVariants.{Memory};

use std::marker::Model;

/// A file of the hive.
#[derive(Clone, Copy, Debug, PartialEq, Eq)]
pub enum HiveFile {
    /// The hive itself.
    Primary,
    /// The log, which a commit writes first.
    Log,
}

/// A sector of a file: its number from 0 on, in sectors of 512 bytes.
#[derive(Clone, Copy, Debug, PartialEq, Eq)]
pub struct Address {
    pub file: HiveFile,
    pub sector: u32,
}

impl Model for Address {
    ghost use Rattle.hive_model.specs.Image as book;
    ghost use Rattle.nt_edge.specs.Book.{file_of, hive_file_of, hive_file_of-file_of};

    ghost Value = { book.Address };

    ghost view = { λ a. record { file = file_of a.file; sector = a.sector } };

    ghost inverse = { λ d. record { file = hive_file_of d.file; sector = d.sector } };

    ghost inverse_ok = { λ a h i. record { file = hive_file_of-file_of a.file i; sector = a.sector } };
}

impl Address {
    /// Whether both are one sector.
    pub fn is(self, other: Address) -> bool
        ensures { result ≡ same_address self other }
    {
        let same_file = match (self.file, other.file) {
            (HiveFile::Primary, HiveFile::Primary) => true,
            (HiveFile::Log, HiveFile::Log) => true,
            (HiveFile::Primary, HiveFile::Log) => false,
            (HiveFile::Log, HiveFile::Primary) => false,
        };
        same_file && self.sector == other.sector
    }
}

/// What a read found.
#[derive(Clone, Copy, Debug, PartialEq, Eq)]
pub enum Presence {
    /// The sector is there, and its bytes were read.
    Whole,
    /// There is no such sector. What was to be read into has any bytes.
    Absent,
    /// The sector is there and can't be read, since the power was lost while a write to it was in
    /// flight. What was to be read into has any bytes.
    Unreadable,
}

/// Why a disk refused a call.
#[derive(Clone, Copy, Debug, PartialEq, Eq)]
pub enum DiskStop {
    /// The power was cut in this call, and the disk is off now.
    PowerLost,
    /// The device failed. The disk is on.
    Failed,
    /// The disk had no memory. It is on.
    Memory,
}

/// A kind of call of a disk.
#[derive(Clone, Copy, Debug, PartialEq, Eq)]
pub enum DiskCall {
    Read,
    Write,
    Sync,
}

/// What a cut leaves of the writes in flight.
#[derive(Clone, Copy, Debug, PartialEq, Eq)]
pub enum Keep {
    Nothing,
    Everything,
    /// The first, the third, the fifth and so on.
    OddOnes,
    /// None, and each sector that a write was in flight to can't be read.
    Torn,
}

/// A disk of sectors. A write is in flight until a sync that succeeds, and a loss of power leaves of
/// the writes in flight what it pleases, each sector by itself: what it was, what was written to it, or
/// none that can be read.
///
/// Its counts of cuts, of faults and of refusals for lack of memory never fall; they end at
/// 18,446,744,073,709,551,615 and stay there. Each refusal raises the count of its cause, and no other
/// answer does. Each call wants the disk on.
pub trait Disk {
    /// Whether the disk reports its contents: what it holds, the writes in flight and its wakes. No
    /// call changes that. What is said of power and counts is said of every disk.
    ghost tells: { Bool };

    /// What the disk is at a moment.
    ghost state: { Self → DiskState };

    /// What the disk says of the calls that were made: lists, the first call first, among which is the true
    /// one. A disk may keep its calls, count them or forget them; each call puts itself after, whatever it
    /// answers.
    ghost calls: { Self → List Made → Type 0 };

    /// Reads a sector as it was last written. Changes nothing but the counts.
    fn read(&mut self, at: Address, into: &mut [u8; 512]) -> Result<Presence, DiskStop>
        requires on { (state self.old).on ≡ true }
        ensures made { Makes (calls self.old) (calls self.new) (ReadAt at ∷ []) }
        ensures whole { tells ≡ true → result ≡ Ok Presence.Whole
            → now_of (state self.old) at ≡ Some (Bytes into.new) }
        ensures absent { tells ≡ true → result ≡ Ok Presence.Absent → now_of (state self.old) at ≡ None }
        ensures unreadable { tells ≡ true → result ≡ Ok Presence.Unreadable
            → now_of (state self.old) at ≡ Some Unreadable }
        ensures held { tells ≡ true → (state self.new).held ≡ (state self.old).held }
        ensures flight { tells ≡ true → (state self.new).flight ≡ (state self.old).flight }
        ensures history { (state self.new).history ≡ (state self.old).history }
        ensures counts { CountsGrow (state self.old) (state self.new) }
        ensures cause { HasCause (state self.old) (state self.new) result }
        ensures never_memory { IsErrOf result Memory → ⊥ }
        ensures power { IsOnUnlessLost (state self.new) result };

    /// Writes a sector. The write is in flight; after `PowerLost` and `Failed` perhaps, after
    /// `Memory` not.
    fn write(&mut self, at: Address, bytes: &[u8; 512]) -> Result<(), DiskStop>
        requires on { (state self.old).on ≡ true }
        ensures made { Makes (calls self.old) (calls self.new) (Wrote (at, bytes.now) ∷ []) }
        ensures written { tells ≡ true → OnOk result
            ((state self.new).flight ≡ (state self.old).flight ++ (at, bytes.now) ∷ []) }
        ensures perhaps { tells ≡ true → OnErr result
            (((state self.new).flight ≡ (state self.old).flight)
            ⊎ ((state self.new).flight ≡ (state self.old).flight ++ (at, bytes.now) ∷ [])) }
        ensures unwritten { tells ≡ true → IsErrOf result Memory
            → (state self.new).flight ≡ (state self.old).flight }
        ensures held { tells ≡ true → (state self.new).held ≡ (state self.old).held }
        ensures history { (state self.new).history ≡ (state self.old).history }
        ensures counts { CountsGrow (state self.old) (state self.new) }
        ensures cause { HasCause (state self.old) (state self.new) result }
        ensures power { IsOnUnlessLost (state self.new) result };

    /// Makes the writes in flight part of what is held, for good. After a refusal both are as they
    /// were.
    fn sync(&mut self) -> Result<(), DiskStop>
        requires on { (state self.old).on ≡ true }
        ensures made { Makes (calls self.old) (calls self.new) (Synced ∷ []) }
        ensures held { tells ≡ true → OnOk result ((state self.new).held ≡ now_of (state self.old)) }
        ensures flight { tells ≡ true → OnOk result ((state self.new).flight ≡ []) }
        ensures held_before { tells ≡ true → OnErr result
            ((state self.new).held ≡ (state self.old).held) }
        ensures flight_before { tells ≡ true → OnErr result
            ((state self.new).flight ≡ (state self.old).flight) }
        ensures history { (state self.new).history ≡ (state self.old).history }
        ensures counts { CountsGrow (state self.old) (state self.new) }
        ensures cause { HasCause (state self.old) (state self.new) result }
        ensures power { IsOnUnlessLost (state self.new) result };

    /// No count is ever past its end.
    ghost bounded: { (disk : Self) → IsBounded (state disk) };

    /// Of the calls that were made it prints some list.
    ghost some: { (disk : Self) → (made : List Made) × calls disk made };
}
