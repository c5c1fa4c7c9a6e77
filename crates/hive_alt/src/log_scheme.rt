//! The scheme of a log.

use crate::Scheme;
use hive_commit::{CommitStop, LoadStop, Recovered};
use nt_bytes::ReadStop;
use nt_edge::Disk;
use regf_base::BaseBlock;
use std::alloc::Global;

/// A hive with a log, which a commit writes first: what `hive_log` and `hive_commit` do.
#[derive(Clone, Copy, Debug, PartialEq, Eq)]
pub struct LogScheme;

impl Scheme for LogScheme {
    ghost use Rattle.std.specs.Prelude.{◌≡◌};
    ghost use Rattle.hive_model.specs.Recovery.{recovered_of};
    ghost use Rattle.hive_model.specs.Carries.{Carries};
    ghost use Rattle.hive_commit.specs.Calls.{recovery_calls, change_calls};
    ghost use Rattle.hive_alt.specs.Calls.{IsRestoring};

    ghost stands = { recovered_of };

    ghost settled = { Carries };

    ghost repairs = { IsRestoring };

    ghost loads = { λ image calls. calls ≡ recovery_calls image };

    ghost commits = { change_calls };

    fn look<D: Disk>(alloc: Global, disk: &mut D) -> Result<Recovered, LoadStop> {
        hive_commit::look(alloc, disk)
    }

    fn kept(alloc: Global, primary: &[u8], second: &[u8]) -> Result<Recovered, ReadStop> {
        hive_log::recovered(alloc, primary, second)
    }

    fn load<D: Disk>(alloc: Global, disk: &mut D) -> Result<Recovered, LoadStop> {
        hive_commit::recover(alloc, disk)
    }

    fn commit<D: Disk>(
        disk: &mut D,
        base: &BaseBlock,
        old: &[u8],
        new: &[u8],
        root: u32,
    ) -> Result<BaseBlock, CommitStop> {
        let mut marks = [0; 4096];
        hive_commit::commit(disk, base, old, new, root, &mut marks)
    }

    fn settled_is_clean() {}
}
