//! The file of the hive.

ghost use Rattle.std.specs.Prelude.{◌≡◌, ◌≤◌, [], false, length, IfOk};
ghost use Rattle.nt_bytes.specs.declared.version.HiveVersion.TheVariants.{V3};
ghost use Rattle.hive_model.specs.Limits.{most_bins};
ghost use Rattle.hive_model.specs.Image.{image_of};
ghost use Rattle.hive_model.specs.Load.{Loads, state_of};
ghost use Rattle.generated_hive.specs.File.{clean_base, clean_file, generated_file};
ghost use Rattle.generated_hive.specs.Generated.{generated};

use crate::tree::generated_tree;
use hive_pack::pack;
use nt_bytes::{Bytes, HiveVersion};
use regf_base::{BaseBlock, base_bytes};
use std::alloc::{AllocError, Global};

/// The base block of a clean hive with sequence number 1 and that many bytes of bins data.
fn block(size: u32) -> BaseBlock
    ensures { result ≡ clean_base size }
{
    BaseBlock {
        first: 1,
        second: 1,
        stamp: 0,
        minor: 3,
        kind: 0,
        root: 32,
        size,
        cluster: 1,
        name: [0; 64],
        rest: [0; 396],
    }
}

/// The primary file with these bins data.
#[tactic(auto, unfolding(crate::specs::File::clean_file))]
fn file(alloc: Global, bins: &[u8]) -> Result<Bytes, AllocError>
    requires { length bins.now ≤ most_bins }
    ensures { IfOk result (λ b. b ≡ clean_file bins.now) }
{
    let mut sector = [0; 512];
    base_bytes(&block(bins.len() as u32), &mut sector);
    let mut bytes = Bytes::from_slice(alloc, &sector)?;
    bytes.append_zeros(3584)?;
    bytes.append(bins)?;
    Ok(bytes)
}

/// The primary file of a system with one control set of that many services, at most 10,000: a clean hive of version 1.3
/// with sequence number 1. The work is linear in their number.
#[tactic(auto, unfolding(crate::specs::File::generated_file))]
pub fn generated_hive(alloc: Global, count: u32) -> Result<Bytes, AllocError>
    requires few { count ≤ 10000 }
    ensures exact { IfOk result (λ b. b ≡ generated_file count) }
    ensures loads { IfOk result (λ b. Loads (image_of b []) (state_of (generated count) 1 V3) false) }
{
    let tree = generated_tree(alloc, count)?;
    let bins = pack(alloc, &tree, HiveVersion::V3)?;
    file(alloc, bins.as_slice())
}
