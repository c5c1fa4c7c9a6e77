//! A disk in a test bench, which turns it on and off, cuts its power and orders its stops.

ghost use Rattle.std.specs.Prelude.{◌≡◌, ◌≤◌, true, false, [], length, IfOk, IfErr, OnOk, OnErr};
ghost use Rattle.hive_model.specs.Limits.{most_file};
ghost use Rattle.hive_model.specs.Image.{Image, IsCrashImage, IsFileOf, ArmedCut, ArmedFault};
ghost use Rattle.nt_edge.specs.Book.{file_of, call_of, keep_of};
ghost use Rattle.nt_edge.specs.Calls.{MakesNone};
ghost use Rattle.nt_edge.specs.Bench.{placed, woken, taken, turned_off, cut_off, armed, KeepsOrders};
ghost use Rattle.nt_edge.specs.declared.disk.DiskStop.TheVariants.{Memory};

use crate::{Disk, DiskCall, DiskStop, HiveFile, Keep};
use nt_bytes::Bytes;

/// A disk that reports its contents, with what happens to it from outside.
///
/// Its calls refuse nothing but for lack of memory, and are then without effect. It stops at most as
/// often as it was ordered to, and one that got no order never stops. None of its calls is a call of the
/// disk.
pub trait Bench: Disk {
    /// Gives a file these bytes, at most 33,554,432, cut into sectors, the last one filled with zeros.
    /// The disk is off and has nothing in flight.
    fn place(&mut self, file: HiveFile, bytes: &[u8]) -> Result<(), DiskStop>
        requires off { (Self.state self.old).on ≡ false }
        requires still { (Self.state self.old).flight ≡ [] }
        requires few { length bytes.now ≤ most_file }
        ensures placed { OnOk result
            (Self.state self.new ≡ placed (file_of file) bytes.now (Self.state self.old)) }
        ensures before { OnErr result (Self.state self.new ≡ Self.state self.old) }
        ensures quiet { MakesNone (Self.calls self.old) (Self.calls self.new) }
        ensures memory { IfErr result (λ stop. stop ≡ Memory) };

    /// Settles the disk, which is off, to what a loss of power may leave, and answers the file's sectors
    /// from 0 to the last one that is there, as zeros an absent one in between and one that can't be read.
    fn take(&mut self, file: HiveFile) -> Result<Bytes, DiskStop>
        requires off { (Self.state self.old).on ≡ false }
        ensures taken { IfOk result (λ bytes. (image : Image)
            × IsCrashImage (Self.state self.old).held (Self.state self.old).flight image
            × (Self.state self.new ≡ taken image (Self.state self.old))
            × IsFileOf image (file_of file) bytes) }
        ensures before { OnErr result (Self.state self.new ≡ Self.state self.old) }
        ensures quiet { MakesNone (Self.calls self.old) (Self.calls self.new) }
        ensures memory { IfErr result (λ stop. stop ≡ Memory) };

    /// Turns the disk, which is off, on with what a loss of power may leave: one more wake.
    fn power_on(&mut self) -> Result<(), DiskStop>
        requires off { (Self.state self.old).on ≡ false }
        ensures woken { OnOk result ((image : Image)
            × IsCrashImage (Self.state self.old).held (Self.state self.old).flight image
            × (Self.state self.new ≡ woken image (Self.state self.old))) }
        ensures before { OnErr result (Self.state self.new ≡ Self.state self.old) }
        ensures quiet { MakesNone (Self.calls self.old) (Self.calls self.new) }
        ensures memory { IfErr result (λ stop. stop ≡ Memory) };

    /// Turns the disk off. On a disk that is off it does nothing.
    fn power_off(&mut self)
        ensures off { Self.state self.new ≡ turned_off (Self.state self.old) }
        ensures quiet { MakesNone (Self.calls self.old) (Self.calls self.new) };

    /// Cuts the power of the disk, which is on.
    fn cut(&mut self, keep: Keep)
        requires on { (Self.state self.old).on ≡ true }
        ensures cut { Self.state self.new ≡ cut_off (Self.state self.old) }
        ensures quiet { MakesNone (Self.calls self.old) (Self.calls self.new) };

    /// Orders a cut in the n-th call of this kind from now on, n from 1, in place of an earlier order for
    /// a cut.
    fn arm_cut(&mut self, call: DiskCall, n: u32, keep: Keep) -> Result<(), DiskStop>
        requires { 1 ≤ n }
        ensures armed { OnOk result (Self.state self.new
            ≡ armed (ArmedCut (call_of call) n (keep_of keep)) (Self.state self.old)) }
        ensures before { OnErr result (Self.state self.new ≡ Self.state self.old) }
        ensures quiet { MakesNone (Self.calls self.old) (Self.calls self.new) }
        ensures memory { IfErr result (λ stop. stop ≡ Memory) };

    /// Orders a fault in the n-th call of this kind from now on, n from 1, in place of an earlier order
    /// for a fault.
    fn arm_fault(&mut self, call: DiskCall, n: u32) -> Result<(), DiskStop>
        requires { 1 ≤ n }
        ensures armed { OnOk result (Self.state self.new
            ≡ armed (ArmedFault (call_of call) n) (Self.state self.old)) }
        ensures before { OnErr result (Self.state self.new ≡ Self.state self.old) }
        ensures quiet { MakesNone (Self.calls self.old) (Self.calls self.new) }
        ensures memory { IfErr result (λ stop. stop ≡ Memory) };

    /// Every bench reports its contents.
    ghost told: { Self.tells ≡ true };

    /// It stops at most as often as it was ordered to.
    ghost ordered: { (bench : Self) → KeepsOrders (Self.state bench) };
}
