//! A repair on a disk, with what it prints, and the repair after it.

ghost use Rattle.std.specs.Prelude.{◌≡◌, ◌≤◌, true, false, [], length};
ghost use Rattle.hive_model.specs.Limits.{most_file};

use crate::orders::{Order, give, start};
use mem_edge::MemHost;
use mend_command::mend_command::{MendStatus, mend_hive};
use nt_bytes::Bytes;
use nt_edge::{Bench, Disk, DiskStop};
use std::alloc::{AllocError, Global};

/// The status of a repair, and what was printed.
pub type Ends = (MendStatus, Bytes);

/// Repairs the hive of the disk, which is on.
fn mended<D: Disk>(alloc: Global, disk: &mut D) -> Result<Ends, AllocError>
    requires on { (D.state disk.old).on ≡ true }
    requires still { D.tells ≡ true → (D.state disk.old).flight ≡ [] }
{
    let mut host = MemHost::new(alloc);
    let status = mend_hive(alloc, &mut host, disk);
    Ok((status, Bytes::from_slice(alloc, host.said())?))
}

/// Turns the disk off, if it is on, and on again, and repairs its hive.
pub fn again<B: Bench>(alloc: Global, bench: &mut B) -> Result<Ends, DiskStop> {
    bench.power_off();
    bench.power_on()?;
    match mended(alloc, bench) {
        Ok(ends) => Ok(ends),
        Err(_) => Err(DiskStop::Memory),
    }
}

/// Repairs the hive of this file with a stop ordered.
pub fn stopped<B: Bench>(
    alloc: Global,
    bench: &mut B,
    file: &[u8],
    order: Order,
) -> Result<Ends, DiskStop>
    requires off { (B.state bench.old).on ≡ false }
    requires still { (B.state bench.old).flight ≡ [] }
    requires few { length file.now ≤ most_file }
    requires from_one { 1 ≤ order.n }
{
    start(bench, file)?;
    give(bench, order)?;
    match mended(alloc, bench) {
        Ok(ends) => Ok(ends),
        Err(_) => Err(DiskStop::Memory),
    }
}
