//! What two copies stand for, by reading alone.

ghost use Rattle.std.specs.Prelude.{◌≡◌, true, false, Some, Ok, [], length, IfOk};
ghost use Rattle.hive_model.specs.Base.{is_bins_size};
ghost use Rattle.hive_model.specs.Recovery.{base_in};
ghost use Rattle.hive_model.specs.Carries.{HasBase};
ghost use Rattle.hive_log.specs.Found.{IsUnfinished};
ghost use Rattle.hive_log.specs.Stops.{HasItsFault, IsLookAt};
ghost use Rattle.hive_alt.specs.Copies.{StandsBy};
ghost use Rattle.hive_alt.specs.Schemes.{OnlyReads};
ghost use Rattle.hive_alt.specs.Twin.{twin_of};

use crate::blocks::{read_second_block, second_is};
use crate::gathering::read_run;
use hive_log::{LoadStop, Recovered, goes_with, read_primary_block};
use nt_bytes::{HiveFault, HiveFaultKind};
use nt_edge::{Disk, HiveFile};
use regf_base::BaseBlock;
use std::alloc::Global;

/// What was read, and whether the second copy stands.
#[derive(Debug, Drop)]
pub(crate) struct Seen {
    pub(crate) found: Recovered,
    pub(crate) second: bool,
}

/// Reads what two copies stand for.
#[tactic(auto, using(crate::proofs::ReadingLemmas::reads_then))]
pub(crate) fn read_pair<D: Disk>(alloc: Global, disk: &mut D) -> Result<Seen, LoadStop>
    requires on { (D.state disk.old).on ≡ true }
    requires still { D.tells ≡ true → (D.state disk.old).flight ≡ [] }
    ensures asked { OnlyReads (D.calls disk.old) (D.calls disk.new) }
    ensures stands { D.tells ≡ true → IfOk result (λ s. StandsBy (D.state disk.old).held s.found s.second) }
    ensures fault { D.tells ≡ true → HasItsFault result (twin_of (D.state disk.old).held) }
    ensures sized { IfOk result (λ s. is_bins_size (length s.found.bins) ≡ true) }
    ensures look { IsLookAt D.tells (D.state disk.old) (D.state disk.new) result }
{
    match read_primary_block(disk)? {
        Some(base) => read_behind_first(alloc, disk, base),
        None => read_second(alloc, disk, &None),
    }
}

/// After the primary's base block.
fn read_behind_first<D: Disk>(
    alloc: Global,
    disk: &mut D,
    base: BaseBlock,
) -> Result<Seen, LoadStop>
    requires on { (D.state disk.old).on ≡ true }
    requires still { D.tells ≡ true → (D.state disk.old).flight ≡ [] }
    requires block { D.tells ≡ true → HasBase (D.state disk.old).held base }
    requires size { is_bins_size base.size ≡ true }
    ensures asked { OnlyReads (D.calls disk.old) (D.calls disk.new) }
    ensures stands { D.tells ≡ true → IfOk result (λ s. StandsBy (D.state disk.old).held s.found s.second) }
    ensures fault { D.tells ≡ true → HasItsFault result (twin_of (D.state disk.old).held) }
    ensures sized { IfOk result (λ s. is_bins_size (length s.found.bins) ≡ true) }
    ensures look { IsLookAt D.tells (D.state disk.old) (D.state disk.new) result }
{
    if base.first == base.second {
        read_first(alloc, disk, base)
    } else {
        read_second(alloc, disk, &Some(base))
    }
}

/// The primary stands.
#[tactic(auto, using(crate::proofs::ReadingLemmas::reads_then))]
fn read_first<D: Disk>(alloc: Global, disk: &mut D, base: BaseBlock) -> Result<Seen, LoadStop>
    requires on { (D.state disk.old).on ≡ true }
    requires still { D.tells ≡ true → (D.state disk.old).flight ≡ [] }
    requires block { D.tells ≡ true → HasBase (D.state disk.old).held base }
    requires clean { base.first ≡ base.second }
    requires size { is_bins_size base.size ≡ true }
    ensures asked { OnlyReads (D.calls disk.old) (D.calls disk.new) }
    ensures stands { D.tells ≡ true → IfOk result (λ s. StandsBy (D.state disk.old).held s.found s.second) }
    ensures fault { D.tells ≡ true → HasItsFault result (twin_of (D.state disk.old).held) }
    ensures sized { IfOk result (λ s. is_bins_size (length s.found.bins) ≡ true) }
    ensures look { IsLookAt D.tells (D.state disk.old) (D.state disk.new) result }
{
    let bins = read_run(alloc, disk, HiveFile::Primary, base.size / 512)?;
    let same = second_is(disk, &base, bins.as_slice())?;
    Ok(Seen {
        found: Recovered {
            base,
            bins,
            dirty: !same,
        },
        second: false,
    })
}

/// The primary doesn't stand.
#[tactic(auto, using(crate::proofs::ReadingLemmas::reads_then))]
fn read_second<D: Disk>(
    alloc: Global,
    disk: &mut D,
    opened: &Option<BaseBlock>,
) -> Result<Seen, LoadStop>
    requires on { (D.state disk.old).on ≡ true }
    requires still { D.tells ≡ true → (D.state disk.old).flight ≡ [] }
    requires block { D.tells ≡ true → base_in (D.state disk.old).held ≡ Ok opened.now }
    requires unfinished { IsUnfinished opened.now }
    ensures asked { OnlyReads (D.calls disk.old) (D.calls disk.new) }
    ensures stands { D.tells ≡ true → IfOk result (λ s. StandsBy (D.state disk.old).held s.found s.second) }
    ensures fault { D.tells ≡ true → HasItsFault result (twin_of (D.state disk.old).held) }
    ensures sized { IfOk result (λ s. is_bins_size (length s.found.bins) ≡ true) }
    ensures look { IsLookAt D.tells (D.state disk.old) (D.state disk.new) result }
{
    let second = read_second_block(disk)?;
    if !goes_with(opened, &second) {
        return Err(LoadStop::Fault(HiveFault {
            kind: HiveFaultKind::LogSequence,
            at: 4,
        }));
    }
    let bins = read_run(alloc, disk, HiveFile::Log, second.size / 512)?;
    Ok(Seen {
        found: Recovered {
            base: second,
            bins,
            dirty: true,
        },
        second: true,
    })
}
