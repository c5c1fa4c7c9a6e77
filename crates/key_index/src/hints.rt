//! The four bytes that a list has for each name, out of the bytes that the name is stored in.

ghost use Rattle.std.specs.Prelude.{◌≡◌, ◌+◌, ◌*◌, ◌%◌, true, false, IfOk, slice_index};
ghost use Rattle.std.specs.Result.{IsOk};
ghost use Rattle.std.specs.List.{All};
ghost use Rattle.nt_bytes.specs.Folding.{folded_unit};
ghost use Rattle.nt_bytes.specs.Text.{wide_of};
ghost use Rattle.hive_model.specs.StoredNames.{stored_name};
ghost use Rattle.hive_model.specs.KeyNode.{key_node_at};
ghost use Rattle.hive_model.specs.Lists.{hash_of, hint_of};
ghost use Rattle.key_index.specs.Lists.{IsNode, hint_in, hints_in, node_hint, stored_hint};
ghost use Rattle.hive_cells.specs.Sources.{cells_of};

use crate::node::{is_narrow, stored_bytes};
use crate::source::payload;
use hive_cells::Source;
use nt_bytes::{HiveVersion, fold};
use std::alloc::{AllocError, Global};

// ---- of a name with one byte a unit

/// The hash of a unit after others of this hash.
fn hash_behind(hash: u32, unit: u16) -> u32
    ensures { result ≡ (37 * hash + folded_unit unit) % 4294967296 }
{
    ((37 * u64::from(hash) + u64::from(fold(unit))) % 0x1_0000_0000) as u32
}

/// The hash of a name.
fn hash_narrow(stored: &[u8]) -> u32
    ensures { result ≡ hash_of stored.now }
{
    let mut hash = 0;
    let mut rest = stored;
    'units: loop {
        let [unit, more @ ..] = rest else {
            return hash;
        };
        hash = hash_behind(hash, u16::from(*unit));
        rest = more;
    }
}

/// The byte at a place, or 0 after the last.
fn byte_or_zero(bytes: &[u8], at: usize) -> u8
    ensures { result ≡ slice_index bytes.now at }
{
    match bytes.get(at) {
        Some(byte) => *byte,
        None => 0,
    }
}

/// The first four bytes of a name, zeros after a short one.
fn first_bytes(stored: &[u8]) -> [u8; 4]
    ensures { result ≡ hint_of true stored.now }
{
    [
        byte_or_zero(stored, 0),
        byte_or_zero(stored, 1),
        byte_or_zero(stored, 2),
        byte_or_zero(stored, 3),
    ]
}

/// The four bytes for a name.
fn hint_narrow(version: HiveVersion, stored: &[u8]) -> [u8; 4]
    ensures { result ≡ stored_hint version true stored.now }
{
    match version {
        HiveVersion::V3 => first_bytes(stored),
        HiveVersion::V5 => hash_narrow(stored).to_le_bytes(),
    }
}

// ---- of a name with two bytes a unit

/// The hash of a name.
fn hash_wide(stored: &[u8]) -> u32
    ensures { result ≡ hash_of (wide_of stored.now) }
{
    let mut hash = 0;
    let mut rest = stored;
    'units: loop {
        let [low, high, more @ ..] = rest else {
            return hash;
        };
        hash = hash_behind(hash, u16::from_le_bytes([*low, *high]));
        rest = more;
    }
}

/// The four bytes for a name.
fn hint_wide(version: HiveVersion, stored: &[u8]) -> [u8; 4]
    ensures { result ≡ stored_hint version false (wide_of stored.now) }
{
    match version {
        HiveVersion::V3 => [0; 4],
        HiveVersion::V5 => hash_wide(stored).to_le_bytes(),
    }
}

// ---- of key nodes

/// The four bytes for a name that is stored in these.
fn hint_stored(version: HiveVersion, is_narrow: bool, stored: &[u8]) -> [u8; 4]
    ensures { result ≡ stored_hint version is_narrow (stored_name is_narrow stored.now) }
{
    if is_narrow {
        hint_narrow(version, stored)
    } else {
        hint_wide(version, stored)
    }
}

/// The four bytes for the name of the key node in a payload.
fn hint_of_node(version: HiveVersion, node: &[u8]) -> [u8; 4]
    requires { IsOk (key_node_at node.now) }
    ensures { result ≡ node_hint version node.now }
{
    hint_stored(version, is_narrow(node), stored_bytes(node))
}

/// The four bytes for the name of the key node at an offset.
fn hint_at(cells: &Source, at: u32) -> [u8; 4]
    requires { IsNode (cells_of cells.now) at }
    ensures { result ≡ hint_in (cells_of cells.now) at }
{
    hint_of_node(cells.version, payload(cells, at))
}

/// Those for each of these.
pub(crate) fn hints(
    alloc: Global,
    cells: &Source,
    offsets: &[u32],
) -> Result<Vec<[u8; 4]>, AllocError>
    requires { All (IsNode (cells_of cells.now)) offsets.now }
    ensures { IfOk result (λ v. v.items ≡ hints_in (cells_of cells.now) offsets.now) }
{
    let mut made = Vec::new(alloc);
    made.resize(offsets.len(), [0; 4])?;
    for (i, at) in offsets.iter().enumerate() {
        made[i] = hint_at(cells, *at);
    }
    Ok(made)
}
