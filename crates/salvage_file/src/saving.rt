//! The sound hive of what was salvaged.

ghost use Rattle.std.specs.Prelude.{◌≡◌, ◌≤◌, length, Some, IfOk};
ghost use Rattle.hive_model.specs.Edit.{most_bulk};
ghost use Rattle.hive_model.specs.Limits.{most_bins};
ghost use Rattle.hive_model.specs.Size.{bulk_of};
ghost use Rattle.hive_model.specs.Tree.{Tree};
ghost use Rattle.hive_model.specs.Valid.{IsValid};
ghost use Rattle.salvage_file.specs.Saving.{kept_base, minor_of, saved_base, saved_file, saved_of, saving_of};

use hive_pack::pack;
use nt_bytes::{Bytes, HiveVersion};
use reg_tree::{Key, MOST_BULK};
use regf_base::{BaseBlock, base_bytes};
use std::alloc::{AllocError, Global};

/// What is saved.
#[derive(Drop)]
pub enum Saving {
    /// Nothing, since there is no root.
    NoRoot,
    /// Nothing, since the tree is too large.
    Full,
    /// The file of a clean hive with this number.
    Saved(u32, Bytes),
}

/// The base block of which number, stamp, cluster, name and rest are kept.
pub(crate) fn kept_base(signed: bool, base: &BaseBlock) -> BaseBlock
    ensures { result ≡ kept_base signed base.now }
{
    if signed {
        return *base;
    }
    BaseBlock {
        first: 1,
        stamp: 0,
        cluster: 1,
        name: [0; 64],
        rest: [0; 396],
        ..*base
    }
}

/// The minor number of a version.
pub fn minor_of(version: HiveVersion) -> u32
    ensures { result ≡ minor_of version }
{
    match version {
        HiveVersion::V3 => 3,
        HiveVersion::V5 => 5,
    }
}

fn saved_base(base: &BaseBlock, version: HiveVersion, size: u32) -> BaseBlock
    ensures { result ≡ saved_base base.now version size }
{
    BaseBlock {
        second: base.first,
        minor: minor_of(version),
        kind: 0,
        root: 32,
        size,
        ..*base
    }
}

// The file with these bins data.
#[tactic(auto, unfolding(crate::specs::Saving::saved_file))]
fn saved_file(
    alloc: Global,
    base: &BaseBlock,
    version: HiveVersion,
    bins: &[u8],
) -> Result<Bytes, AllocError>
    requires { length bins.now ≤ most_bins }
    ensures { IfOk result (λ b. b ≡ saved_file base.now version bins.now) }
{
    let mut sector = [0; 512];
    base_bytes(&saved_base(base, version, bins.len() as u32), &mut sector);
    let mut bytes = Bytes::from_slice(alloc, &sector)?;
    bytes.append_zeros(3584)?;
    bytes.append(bins)?;
    Ok(bytes)
}

// What is saved of a tree.
fn saved_of(
    alloc: Global,
    base: &BaseBlock,
    version: HiveVersion,
    tree: &Key,
) -> Result<Saving, AllocError>
    requires { bulk_of version tree.now ≤ most_bulk → IsValid tree.now }
    ensures { IfOk result (λ s. s ≡ saved_of base.now version tree.now) }
{
    if tree.bulk(version) > MOST_BULK {
        return Ok(Saving::Full);
    }
    let bins = pack(alloc, tree, version)?;
    let file = saved_file(alloc, base, version, bins.as_slice())?;
    Ok(Saving::Saved(base.first, file))
}

/// What is saved of what was salvaged.
pub(crate) fn saving_of(
    alloc: Global,
    base: &BaseBlock,
    version: HiveVersion,
    tree: &Option<Key>,
) -> Result<Saving, AllocError>
    requires { (t : Tree) → tree.now ≡ Some t → bulk_of version t ≤ most_bulk → IsValid t }
    ensures { IfOk result (λ s. s ≡ saving_of base.now version tree.now) }
{
    match tree {
        None => Ok(Saving::NoRoot),
        Some(tree) => saved_of(alloc, base, version, tree),
    }
}
