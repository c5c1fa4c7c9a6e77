//! A commit to two copies on a bench, with one stop ordered, and the start after it.

ghost use Rattle.std.specs.Prelude.{◌≡◌, ◌≤◌, true, false, [], length, OnOk};
ghost use Rattle.hive_model.specs.Limits.{most_file};
ghost use Rattle.hive_model.specs.Base.{is_bins_size};

use crate::change::{Change, Found};
use crate::orders::{Order, give, start};
use hive_alt::{CommitStop, LoadStop, Recovered, Scheme, TwinScheme};
use nt_edge::{Bench, DiskStop, HiveFile};
use std::alloc::Global;

/// The sequence number that the commit answered, and what the start after it finds.
pub type Ends = (Result<u32, CommitStop>, Result<Found, LoadStop>);

/// Turns the disk on with two equal copies of this file.
fn start_twice<B: Bench>(bench: &mut B, file: &[u8]) -> Result<(), DiskStop>
    requires off { (B.state bench.old).on ≡ false }
    requires still { (B.state bench.old).flight ≡ [] }
    requires few { length file.now ≤ most_file }
    ensures on { OnOk result ((B.state bench.new).on ≡ true) }
    ensures still { OnOk result ((B.state bench.new).flight ≡ []) }
{
    bench.place(HiveFile::Log, file)?;
    start(bench, file)
}

/// Turns the disk off, if it is on, and on again, and looks at what it then stands for.
fn restart<B: Bench>(alloc: Global, bench: &mut B) -> Result<Recovered, LoadStop> {
    bench.power_off();
    bench.power_on()?;
    TwinScheme::look(alloc, bench)
}

/// Turns the disk off, if it is on, and on again, repairs it with a stop ordered, and answers the stop that came and
/// what the start after it finds.
pub fn mend_with<B: Bench>(
    alloc: Global,
    bench: &mut B,
    order: Order,
) -> Result<(Option<LoadStop>, Recovered), LoadStop>
    requires { 1 ≤ order.n }
{
    bench.power_off();
    bench.power_on()?;
    give(bench, order)?;
    let stop = TwinScheme::load(alloc, bench).err();
    let after = restart(alloc, bench)?;
    Ok((stop, after))
}

/// Commits the new bins data over those that the disk stands for, with a stop ordered.
fn change<B: Bench>(
    alloc: Global,
    bench: &mut B,
    new: &[u8],
    order: Order,
) -> Result<Result<u32, CommitStop>, LoadStop>
    requires on { (B.state bench.old).on ≡ true }
    requires still { (B.state bench.old).flight ≡ [] }
    requires sized { is_bins_size (length new.now) ≡ true }
    requires from_one { 1 ≤ order.n }
{
    let found = TwinScheme::load(alloc, bench)?;
    give(bench, order)?;
    match TwinScheme::commit(bench, &found.base, found.bins.as_slice(), new, 32) {
        Ok(base) => Ok(Ok(base.first)),
        Err(stop) => Ok(Err(stop)),
    }
}

/// Plays a change with a stop ordered within its commit, and the start after it.
pub fn play<B: Bench>(
    alloc: Global,
    bench: &mut B,
    whole: &Change,
    order: Order,
) -> Result<Ends, LoadStop>
    requires off { (B.state bench.old).on ≡ false }
    requires still { (B.state bench.old).flight ≡ [] }
    requires few { length whole.now.file ≤ most_file }
    requires sized { is_bins_size (length whole.now.new) ≡ true }
    requires from_one { 1 ≤ order.n }
{
    start_twice(bench, whole.file.as_slice())?;
    let answer = change(alloc, bench, whole.new.as_slice(), order)?;
    let after = match restart(alloc, bench) {
        Ok(recovered) => Ok(whole.found(&recovered)),
        Err(stop) => Err(stop),
    };
    Ok((answer, after))
}
