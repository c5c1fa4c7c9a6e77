//! The bench round a disk in memory.

ghost use Rattle.std.specs.Prelude.{◌≡◌, IfOk, refl};
ghost use Rattle.mem_edge.specs.Laws.{ordered_law};
ghost use Rattle.mem_edge.specs.Seen.{seen_of, settled};
ghost use Rattle.mem_edge.specs.Views.{held_of};
ghost use Rattle.hive_model.specs.Limits.{most_file};

use crate::files::{cut_up, joined};
use crate::image::MemImage;
use crate::orders::{Armed, Arming};
use crate::store::{MemDisk, Woke};
use crate::writes::Flight;
use nt_bytes::Bytes;
use nt_edge::{Bench, DiskCall, DiskStop, HiveFile, Keep};
use std::alloc::AllocError;

impl MemDisk {
    /// A copy of the image that the disk settles to.
    fn settled(&self) -> Result<MemImage, AllocError>
        ensures { IfOk result (λ m. held_of m ≡ settled (seen_of self.now)) }
    {
        let flight = self.flight.copied(self.alloc)?;
        let mut image = self.image.copy(self.alloc)?;
        image.make_room(&flight)?;
        image.settle(flight, self.keep);
        Ok(image)
    }
}

impl Bench for MemDisk {
    ghost use Rattle.std.specs.Prelude.{◌≡◌, ◌≤◌, true, false, [], length, IfOk, IfErr, OnOk, OnErr};
    ghost use Rattle.hive_model.specs.Image.{Image, IsCrashImage, IsFileOf};
    ghost use Rattle.nt_edge.specs.Book.{file_of};
    ghost use Rattle.nt_edge.specs.Calls.{MakesNone};
    ghost use Rattle.nt_edge.specs.Disk.{now_of};
    ghost use Rattle.nt_edge.specs.Bench.{placed, woken, taken, turned_off};
    ghost use Rattle.nt_edge.specs.declared.disk.DiskStop.TheVariants.{Memory};
    ghost use Rattle.mem_edge.specs.Calls.{counts_calls};
    ghost use Rattle.mem_edge.specs.State.{state_of};
    ghost use Rattle.mem_edge.specs.Seen.{seen_of, settled, doing, woken_up, cut_with, cut_armed, fault_armed};

    fn place(&mut self, file: HiveFile, bytes: &[u8]) -> Result<(), DiskStop>
        requires off { (state_of self.old).on ≡ false }
        requires still { (state_of self.old).flight ≡ [] }
        requires few { length bytes.now ≤ most_file }
        ensures does { OnOk result (seen_of self.new ≡ doing (placed (file_of file) bytes.now) (seen_of self.old)) }
        ensures same { OnErr result (seen_of self.new ≡ seen_of self.old) }
        ensures quiet { MakesNone (counts_calls self.old) (counts_calls self.new) }
        ensures memory { IfErr result (λ stop. stop ≡ Memory) }
    {
        let Ok(sectors) = cut_up(self.alloc, bytes) else {
            return Err(DiskStop::Memory);
        };
        match file {
            HiveFile::Primary => self.image.primary = sectors,
            HiveFile::Log => self.image.log = sectors,
        }
        self.placings = self.placings.saturating_add(1);
        Ok(())
    }

    fn take(&mut self, file: HiveFile) -> Result<Bytes, DiskStop>
        requires off { (state_of self.old).on ≡ false }
        ensures does { OnOk result (seen_of self.new ≡ doing (taken (settled (seen_of self.old))) (seen_of self.old)) }
        ensures same { OnErr result (seen_of self.new ≡ seen_of self.old) }
        ensures taken { IfOk result (λ bytes. (image : Image)
            × IsCrashImage (state_of self.old).held (state_of self.old).flight image
            × (state_of self.new ≡ taken image (state_of self.old))
            × IsFileOf image (file_of file) bytes) }
        ensures quiet { MakesNone (counts_calls self.old) (counts_calls self.new) }
        ensures memory { IfErr result (λ stop. stop ≡ Memory) }
    {
        let Ok(image) = self.settled() else {
            return Err(DiskStop::Memory);
        };
        let Ok(bytes) = joined(self.alloc, image.file(file)) else {
            return Err(DiskStop::Memory);
        };
        self.image = image;
        self.flight = Flight::new(self.alloc);
        self.takings = self.takings.saturating_add(1);
        Ok(bytes)
    }

    fn power_on(&mut self) -> Result<(), DiskStop>
        requires off { (state_of self.old).on ≡ false }
        ensures does { OnOk result (seen_of self.new ≡ woken_up (seen_of self.old)) }
        ensures same { OnErr result (seen_of self.new ≡ seen_of self.old) }
        ensures woken { OnOk result ((image : Image)
            × IsCrashImage (state_of self.old).held (state_of self.old).flight image
            × (state_of self.new ≡ woken image (state_of self.old))) }
        ensures quiet { MakesNone (counts_calls self.old) (counts_calls self.new) }
        ensures memory { IfErr result (λ stop. stop ≡ Memory) }
    {
        let Ok(image) = self.settled() else {
            return Err(DiskStop::Memory);
        };
        let Ok(copy) = image.copy(self.alloc) else {
            return Err(DiskStop::Memory);
        };
        let woke = Woke {
            image: copy,
            cuts: self.cuts,
            faults: self.faults,
        };
        if self.wakes.push(woke).is_err() {
            return Err(DiskStop::Memory);
        }
        self.image = image;
        self.flight = Flight::new(self.alloc);
        self.keep = Keep::Everything;
        self.on = true;
        Ok(())
    }

    fn power_off(&mut self)
        ensures does { seen_of self.new ≡ doing turned_off (seen_of self.old) }
        ensures keeps_all { (state_of self.old).on ≡ true
            → settled (seen_of self.new) ≡ now_of (state_of self.old) }
        ensures quiet { MakesNone (counts_calls self.old) (counts_calls self.new) }
    {
        self.on = false;
    }

    fn cut(&mut self, keep: Keep)
        requires on { (state_of self.old).on ≡ true }
        ensures does { seen_of self.new ≡ cut_with keep (seen_of self.old) }
        ensures quiet { MakesNone (counts_calls self.old) (counts_calls self.new) }
    {
        self.on = false;
        self.keep = keep;
        self.cuts = self.cuts.saturating_add(1);
        self.cut_calls = self.cut_calls.saturating_add(1);
    }

    fn arm_cut(&mut self, call: DiskCall, n: u32, keep: Keep) -> Result<(), DiskStop>
        requires { 1 ≤ n }
        ensures does { OnOk result (seen_of self.new ≡ cut_armed call n keep (seen_of self.old)) }
        ensures same { OnErr result (seen_of self.new ≡ seen_of self.old) }
        ensures quiet { MakesNone (counts_calls self.old) (counts_calls self.new) }
        ensures memory { IfErr result (λ stop. stop ≡ Memory) }
    {
        if self.armings.push(Arming::Cut(call, n, keep)).is_err() {
            return Err(DiskStop::Memory);
        }
        self.armed_cut = Some(Armed {
            call,
            left: n,
            keep,
        });
        Ok(())
    }

    fn arm_fault(&mut self, call: DiskCall, n: u32) -> Result<(), DiskStop>
        requires { 1 ≤ n }
        ensures does { OnOk result (seen_of self.new ≡ fault_armed call n (seen_of self.old)) }
        ensures same { OnErr result (seen_of self.new ≡ seen_of self.old) }
        ensures quiet { MakesNone (counts_calls self.old) (counts_calls self.new) }
        ensures memory { IfErr result (λ stop. stop ≡ Memory) }
    {
        if self.armings.push(Arming::Fault(call, n)).is_err() {
            return Err(DiskStop::Memory);
        }
        self.armed_fault = Some(Armed {
            call,
            left: n,
            keep: Keep::Nothing,
        });
        Ok(())
    }

    ghost told = { refl };

    ghost ordered = { ordered_law };
}
