//! The cells of a key that is to be below another one, in bins data that are there.

ghost use Rattle.std.specs.Prelude.{◌≡◌, ◌≤◌, ◌+◌, IfOk};
ghost use Rattle.hive_model.specs.Limits.{most_bins};
ghost use Rattle.hive_model.specs.Valid.{HoldsKeys};
ghost use Rattle.hive_model.specs.Size.{size};
ghost use Rattle.hive_model.specs.Packed.{text, cells_of, sharers};
ghost use Rattle.hive_pack.specs.Numbers.{HasNumbers};
ghost use Rattle.hive_pack.specs.Below.{beside};

use crate::numbers::numbers_fit;
use crate::ring::ring_of;
use crate::security::{Up, sharers};
use crate::write::write_key;
use nt_bytes::{Bytes, HiveVersion};
use reg_tree::Key;
use std::alloc::{AllocError, Global};

/// The numbers of a tree fit the fields of its cells.
pub fn tree_fits(key: &Key)
    ensures { HasNumbers key.now }
{
    numbers_fit(key)
}

/// How many keys of a tree use this descriptor's cell with the key above it: those that have it, as each key between does.
pub fn sharing_keys(security: &[u8], key: &Key) -> u32
    requires { sharers security.now key.now ≤ most_bins }
    ensures { result ≡ sharers security.now key.now }
{
    sharers(security, key)
}

/// The cells of a key and of all below it, in sequence, which are to be at a place in bins data. The key is a child of
/// the one at `parent`, and shares a descriptor whose cell is at `shared_at` with it. The new cells of security are a ring of
/// their own.
pub fn cells_below(
    alloc: Global,
    version: HiveVersion,
    parent: u32,
    shared: &[u8],
    shared_at: u32,
    at: usize,
    key: &Key,
) -> Result<Bytes, AllocError>
    requires valid { HoldsKeys key.now }
    requires room { at + size version shared.now key.now ≤ most_bins }
    ensures { IfOk result (λ b. b ≡ text (cells_of version (beside version parent shared.now shared_at at key.now) at key.now)) }
{
    let mut ring = Vec::new(alloc);
    let _end = ring_of(&mut ring, version, shared, at, key)?;
    let mut out = Bytes::new(alloc);
    out.append_zeros(at)?;
    let up = Up {
        place: parent,
        security: shared,
        security_place: shared_at,
        ring: &ring,
    };
    write_key(alloc, &mut out, version, up, key)?;
    Bytes::from_slice(alloc, &out.as_slice()[at..])
}
