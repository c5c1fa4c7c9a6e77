//! The calls of a disk in memory.

ghost use Rattle.std.specs.Prelude.{◌≡◌, ◌&&◌, not, true, false, [], length, Some, None, if◌then◌else◌};
ghost use Rattle.hive_model.specs.Image.{Bytes, Unreadable};
ghost use Rattle.nt_edge.specs.Disk.{new_state, now_of, next};
ghost use Rattle.nt_edge.specs.declared.disk.DiskStop.TheVariants.{PowerLost, Failed};
ghost use Rattle.mem_edge.specs.Calls.{counts_calls, CountsOne};
ghost use Rattle.mem_edge.specs.Seen.{seen_of, called, stop_of};
ghost use Rattle.mem_edge.specs.State.{state_of, calls_of};
ghost use Rattle.mem_edge.specs.Views.{found_of};
ghost use Rattle.mem_edge.specs.Laws.{bounded_law, some_law};

use crate::image::MemImage;
use crate::orders::{comes, keep_at};
use crate::store::MemDisk;
use crate::writes::Flight;
use nt_edge::{Address, Disk, DiskCall, DiskStop, Keep, Presence};
use std::alloc::Global;
use std::mem::replace;

impl MemDisk {
    /// A disk that is off, holds nothing, and to which nothing was done yet. Takes no memory.
    pub fn new(alloc: Global) -> MemDisk
        ensures state { state_of result ≡ new_state }
        ensures calls { (call : DiskCall) → calls_of result call ≡ 0 }
        ensures none_made { counts_calls result [] }
    {
        MemDisk {
            alloc,
            image: MemImage::new(alloc),
            flight: Flight::new(alloc),
            on: false,
            cuts: 0,
            faults: 0,
            lacks: 0,
            wakes: Vec::new(alloc),
            cut_calls: 0,
            placings: 0,
            takings: 0,
            armings: Vec::new(alloc),
            armed_cut: None,
            armed_fault: None,
            keep: Keep::Everything,
            reads: 0,
            writes: 0,
            syncs: 0,
        }
    }

    /// How many calls of this kind there were since the disk was made, up to
    /// 18,446,744,073,709,551,615, where it stays.
    pub fn calls(&self, call: DiskCall) -> u64
        ensures { result ≡ calls_of self.now call }
    {
        match call {
            DiskCall::Read => self.reads,
            DiskCall::Write => self.writes,
            DiskCall::Sync => self.syncs,
        }
    }

    /// How many cuts came since the disk was made, up to the same end.
    pub fn cuts(&self) -> u64
        ensures { result ≡ (state_of self.now).cuts }
    {
        self.cuts
    }

    /// How many faults came, up to the same end.
    pub fn faults(&self) -> u64
        ensures { result ≡ (state_of self.now).faults }
    {
        self.faults
    }

    /// How many calls of `cut` there were, up to the same end.
    pub fn cut_calls(&self) -> u64
        ensures { result ≡ (state_of self.now).history.cut_calls }
    {
        self.cut_calls
    }

    /// How many times it was turned on.
    pub fn wakes(&self) -> usize
        ensures { result ≡ length (state_of self.now).history.wakes }
    {
        self.wakes.len()
    }

    /// One more call of this kind.
    fn count(&mut self, call: DiskCall)
        ensures state { state_of self.new ≡ state_of self.old }
        ensures armed_cut { self.new.armed_cut ≡ self.old.armed_cut }
        ensures armed_fault { self.new.armed_fault ≡ self.old.armed_fault }
        ensures keep { self.new.keep ≡ self.old.keep }
        ensures counted { calls_of self.new call ≡ next (calls_of self.old call) }
        ensures others { (other : DiskCall) → (other ≡ call → ⊥)
            → calls_of self.new other ≡ calls_of self.old other }
    {
        match call {
            DiskCall::Read => self.reads = self.reads.saturating_add(1),
            DiskCall::Write => self.writes = self.writes.saturating_add(1),
            DiskCall::Sync => self.syncs = self.syncs.saturating_add(1),
        }
    }

    /// Counts a call, and answers the stop that comes in it.
    fn stop(&mut self, call: DiskCall) -> Option<DiskStop>
        ensures calls { CountsOne self.old self.new call }
        ensures seen { seen_of self.new ≡ called call (seen_of self.old) }
        ensures stop { result ≡ stop_of (seen_of self.old) call }
    {
        self.count(call);
        self.keep = keep_at(&self.armed_cut, call, self.keep);
        let cut = comes(&mut self.armed_cut, call);
        let fault = comes(&mut self.armed_fault, call);
        self.cuts = raised(self.cuts, cut);
        self.faults = raised(self.faults, fault);
        self.on = on_unless(self.on, cut);
        stop_at(cut, fault)
    }

    /// Reads what is at an address as it was last written, if it can be read.
    fn find(&self, at: Address, into: &mut [u8; 512]) -> Presence
        ensures { found_of result into.new ≡ now_of (state_of self.now) at }
    {
        match self.flight.get(at) {
            Some(bytes) => {
                *into = **bytes;
                Presence::Whole
            }
            None => self.image.read(at, into),
        }
    }
}

/// One more where it rises.
fn raised(count: u64, rises: bool) -> u64
    ensures { result ≡ (if rises then next count else count) }
{
    if rises {
        count.saturating_add(1)
    } else {
        count
    }
}

/// Off where the power is lost.
fn on_unless(on: bool, lost: bool) -> bool
    ensures { result ≡ (on && not lost) }
{
    on && !lost
}

/// Where both come, the power is lost.
fn stop_at(cut: bool, fault: bool) -> Option<DiskStop>
    ensures { result ≡ (if cut then Some PowerLost else (if fault then Some Failed else None)) }
{
    if cut {
        Some(DiskStop::PowerLost)
    } else if fault {
        Some(DiskStop::Failed)
    } else {
        None
    }
}

impl Disk for MemDisk {
    ghost use Rattle.std.specs.Prelude.{◌≡◌, true, Some, None, Ok, [], ◌∷◌, IsErrOf};
    ghost use Rattle.nt_edge.specs.Calls.{ReadAt, Wrote, Synced, Makes};
    ghost use Rattle.nt_edge.specs.Disk.{HasCause};
    ghost use Rattle.nt_edge.specs.declared.disk.DiskStop.TheVariants.{Memory};
    ghost use Rattle.mem_edge.specs.Seen.{Does, nothing, written, synced};

    ghost tells = { true };

    ghost state = { state_of };

    ghost calls = { counts_calls };

    fn read(&mut self, at: Address, into: &mut [u8; 512]) -> Result<Presence, DiskStop>
        requires on { (state_of self.old).on ≡ true }
        ensures does { Does DiskCall.Read nothing (seen_of self.old) (seen_of self.new) result }
        ensures made { Makes (counts_calls self.old) (counts_calls self.new) (ReadAt at ∷ []) }
        ensures whole { result ≡ Ok Presence.Whole → now_of (state_of self.old) at ≡ Some (Bytes into.new) }
        ensures absent { result ≡ Ok Presence.Absent → now_of (state_of self.old) at ≡ None }
        ensures unreadable { result ≡ Ok Presence.Unreadable → now_of (state_of self.old) at ≡ Some Unreadable }
        ensures cause { HasCause (state_of self.old) (state_of self.new) result }
        ensures never_memory { IsErrOf result Memory → ⊥ }
    {
        if let Some(stop) = self.stop(DiskCall::Read) {
            return Err(stop);
        }
        Ok(self.find(at, into))
    }

    fn write(&mut self, at: Address, bytes: &[u8; 512]) -> Result<(), DiskStop>
        requires on { (state_of self.old).on ≡ true }
        ensures does { Does DiskCall.Write (written (at, bytes.now)) (seen_of self.old) (seen_of self.new) result }
        ensures made { Makes (counts_calls self.old) (counts_calls self.new) (Wrote (at, bytes.now) ∷ []) }
        ensures cause { HasCause (state_of self.old) (state_of self.new) result }
    {
        if let Some(stop) = self.stop(DiskCall::Write) {
            return Err(stop);
        }
        if self.flight.push(self.alloc, at, bytes).is_err() {
            self.lacks = self.lacks.saturating_add(1);
            return Err(DiskStop::Memory);
        }
        Ok(())
    }

    fn sync(&mut self) -> Result<(), DiskStop>
        requires on { (state_of self.old).on ≡ true }
        ensures does { Does DiskCall.Sync synced (seen_of self.old) (seen_of self.new) result }
        ensures made { Makes (counts_calls self.old) (counts_calls self.new) (Synced ∷ []) }
        ensures cause { HasCause (state_of self.old) (state_of self.new) result }
    {
        if let Some(stop) = self.stop(DiskCall::Sync) {
            return Err(stop);
        }
        if self.image.make_room(&self.flight.writes).is_err() {
            self.lacks = self.lacks.saturating_add(1);
            return Err(DiskStop::Memory);
        }
        let flight = replace(&mut self.flight, Flight::new(self.alloc));
        self.image.settle(flight.writes, Keep::Everything);
        Ok(())
    }

    ghost bounded = { bounded_law };

    ghost some = { some_law };
}
