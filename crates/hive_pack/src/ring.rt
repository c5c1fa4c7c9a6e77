//! The places of security cells, found before any cell is written.

ghost use Rattle.std.specs.Prelude.{◌≡◌, ◌+◌, ◌≤◌, ◌++◌, OnOk, IfOk};
ghost use Rattle.hive_model.specs.Limits.{most_bins};
ghost use Rattle.hive_model.specs.Tree.{trees};
ghost use Rattle.hive_model.specs.Size.{size, size_of_all};
ghost use Rattle.hive_model.specs.Packed.{own_place, ring as places_of, ring_of_all as places_of_all};

use crate::sizes::{class_len, is_own, list_len, node_len, security_len, values_len};
use nt_bytes::HiveVersion;
use reg_tree::Key;
use std::alloc::AllocError;

/// Adds the places of a tree whose cells begin here, and answers where they end.
#[cycle(ring)]
pub(crate) fn ring_of(
    ring: &mut Vec<u32>,
    version: HiveVersion,
    shared: &[u8],
    at: usize,
    key: &Key,
) -> Result<usize, AllocError>
    requires { at + size version shared.now key.now ≤ most_bins }
    ensures listed { OnOk result (ring.new.items ≡ ring.old.items ++ places_of version shared.now at key.now) }
    ensures end { IfOk result (λ e. e ≡ at + size version shared.now key.now) }
{
    let security = key.security();
    let own_at = at + node_len(key) + class_len(key.class());
    add_own(ring, shared, own_at, security)?;
    let values_at = own_at + security_len(shared, security);
    let list_at = values_at + values_len(version, key.items());
    let first = list_at + list_len(key.subkeys().len());
    ring_of_all(ring, version, security, first, key.subkeys())
}

fn add_own(ring: &mut Vec<u32>, shared: &[u8], at: usize, security: &[u8]) -> Result<(), AllocError>
    requires { at ≤ most_bins }
    ensures { OnOk result (ring.new.items ≡ ring.old.items ++ own_place shared.now at security.now) }
{
    if is_own(shared, security) {
        ring.push(at as u32)?;
    }
    Ok(())
}

#[cycle(ring)]
fn ring_of_all(
    ring: &mut Vec<u32>,
    version: HiveVersion,
    shared: &[u8],
    at: usize,
    keys: &[Key],
) -> Result<usize, AllocError>
    requires { at + size_of_all version shared.now (trees keys.now) ≤ most_bins }
    ensures listed { OnOk result (ring.new.items ≡ ring.old.items ++ places_of_all version shared.now at (trees keys.now)) }
    ensures end { IfOk result (λ e. e ≡ at + size_of_all version shared.now (trees keys.now)) }
{
    let mut end = at;
    let mut rest = keys;
    'children: loop {
        let [child, more @ ..] = rest else {
            return Ok(end);
        };
        end = ring_of(ring, version, shared, end, child)?;
        rest = more;
    }
}
