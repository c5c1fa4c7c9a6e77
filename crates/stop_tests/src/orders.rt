//! A stop at a call of a disk, and the start of a disk with a file.

ghost use Rattle.std.specs.Prelude.{◌≡◌, ◌≤◌, true, false, [], length, OnOk};
ghost use Rattle.hive_model.specs.Limits.{most_file};

use nt_edge::{Bench, DiskCall, DiskStop, HiveFile, Keep};

/// A stop at the n-th call of a kind: a cut where what is kept is given, else a fault.
#[derive(Clone, Copy, Debug)]
pub struct Order {
    pub call: DiskCall,
    pub n: u32,
    pub keep: Option<Keep>,
}

/// Turns the disk on with this primary file and no log.
pub fn start<B: Bench>(bench: &mut B, file: &[u8]) -> Result<(), DiskStop>
    requires off { (B.state bench.old).on ≡ false }
    requires still { (B.state bench.old).flight ≡ [] }
    requires few { length file.now ≤ most_file }
    ensures on { OnOk result ((B.state bench.new).on ≡ true) }
    ensures still { OnOk result ((B.state bench.new).flight ≡ []) }
{
    bench.place(HiveFile::Primary, file)?;
    bench.power_on()
}

/// Orders the stop.
pub fn give<B: Bench>(bench: &mut B, order: Order) -> Result<(), DiskStop>
    requires from_one { 1 ≤ order.n }
    ensures held { (B.state bench.new).held ≡ (B.state bench.old).held }
    ensures flight { (B.state bench.new).flight ≡ (B.state bench.old).flight }
    ensures on { (B.state bench.new).on ≡ (B.state bench.old).on }
{
    match order.keep {
        Some(keep) => bench.arm_cut(order.call, order.n, keep),
        None => bench.arm_fault(order.call, order.n),
    }
}
