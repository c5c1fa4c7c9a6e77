//! The scheme of a second whole copy.

use crate::Scheme;
use crate::committing::change_pair;
use crate::files::kept_pair;
use crate::mending::load_pair;
use crate::pair::{Seen, read_pair};
use hive_commit::{CommitStop, LoadStop, Recovered};
use nt_bytes::ReadStop;
use nt_edge::Disk;
use regf_base::BaseBlock;
use std::alloc::Global;

/// A hive with a second whole copy of its primary in the place of a log.
///
/// The primary stands where its base block can be read and has two equal numbers, and else the second copy. A load
/// writes the other one again where both are not good and equal. A commit takes six stages with one sync each: the second
/// copy opened, its sectors that differ, closed; then the same on the primary. A cut in the first three leaves what was
/// before, in the last two what is after, in the fourth one of them.
#[derive(Clone, Copy, Debug, PartialEq, Eq)]
pub struct TwinScheme;

impl Scheme for TwinScheme {
    ghost use Rattle.hive_alt.specs.Calls.{IsMending, IsPairLoad, pair_calls};
    ghost use Rattle.hive_alt.specs.Copies.{IsPair};
    ghost use Rattle.hive_alt.specs.Twin.{twin_of};

    ghost stands = { twin_of };

    ghost settled = { IsPair };

    ghost repairs = { IsMending };

    ghost loads = { IsPairLoad };

    ghost commits = { pair_calls };

    fn look<D: Disk>(alloc: Global, disk: &mut D) -> Result<Recovered, LoadStop> {
        let Seen { found, second: _ } = read_pair(alloc, disk)?;
        Ok(found)
    }

    fn kept(alloc: Global, primary: &[u8], second: &[u8]) -> Result<Recovered, ReadStop> {
        kept_pair(alloc, primary, second)
    }

    fn load<D: Disk>(alloc: Global, disk: &mut D) -> Result<Recovered, LoadStop> {
        load_pair(alloc, disk)
    }

    fn commit<D: Disk>(
        disk: &mut D,
        base: &BaseBlock,
        old: &[u8],
        new: &[u8],
        root: u32,
    ) -> Result<BaseBlock, CommitStop> {
        let closed = change_pair(disk, base, old, new, root)?;
        Ok(closed)
    }

    fn settled_is_clean() {}
}
