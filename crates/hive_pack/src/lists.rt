//! The subkey lists.

ghost use Rattle.std.specs.Prelude.{◌≡◌, ◌≤◌, ◌<◌, ◌+◌, ◌*◌, ◌++◌, length, map, OnOk, IfOk};
ghost use Rattle.std.specs.Prelude.{slice_index, true};
ghost use Rattle.hive_model.specs.Limits.{most_bins};
ghost use Rattle.hive_model.specs.Size.{cell, is_narrow, part_count, list_size};
ghost use Rattle.hive_model.specs.Lists.{AreHints, hint_of};
ghost use Rattle.hive_model.specs.Packed.{text, cell_text, hint, name_hint, part_places, list_text, parts, list_cells};
ghost use Rattle.hive_pack.specs.Writes.{second_of};

use crate::sizes::{cell_size, is_narrow, part_count};
use crate::values::put_cell;
use cell_forms::{append_entries, name_hash, ri_bytes};
use nt_bytes::{Bytes, HiveVersion};
use reg_tree::Key;
use std::alloc::{AllocError, Global};

// ---- hints

/// A unit as a byte, or 0 after the name.
fn byte_or_zero(name: &[u16], at: usize) -> u8
    requires { is_narrow name.now ≡ true }
    ensures { result ≡ slice_index name.now at }
{
    match name.get(at) {
        Some(unit) => *unit as u8,
        None => 0,
    }
}

/// The first four bytes of a name, or zeros for a wide one.
#[tactic(auto, using(crate::proofs::Parts::first_four))]
fn first_bytes(name: &[u16]) -> [u8; 4]
    ensures { result ≡ hint_of (is_narrow name.now) name.now }
{
    if is_narrow(name) {
        [
            byte_or_zero(name, 0),
            byte_or_zero(name, 1),
            byte_or_zero(name, 2),
            byte_or_zero(name, 3),
        ]
    } else {
        [0, 0, 0, 0]
    }
}

/// The four bytes for a name in a list of this version: its first bytes, or its hash.
pub fn name_hint(version: HiveVersion, name: &[u16]) -> [u8; 4]
    ensures { result ≡ name_hint version name.now }
{
    match version {
        HiveVersion::V3 => first_bytes(name),
        HiveVersion::V5 => name_hash(name).to_le_bytes(),
    }
}

/// Those of all children, in order.
fn hints(alloc: Global, version: HiveVersion, keys: &[Key]) -> Result<Vec<[u8; 4]>, AllocError>
    ensures { IfOk result (λ v. v.items ≡ map (hint version) keys.now) }
{
    let mut made = Vec::new(alloc);
    for key in keys {
        made.push(name_hint(version, key.name()))?;
    }
    Ok(made)
}

// ---- lists

fn second_byte(version: HiveVersion) -> u8
    ensures { result ≡ second_of version }
{
    match version {
        HiveVersion::V3 => 0x66,
        HiveVersion::V5 => 0x68,
    }
}

/// A list of these children, in the form of a version.
#[tactic(auto, using(crate::proofs::Parts::list_is))]
fn list_bytes(
    alloc: Global,
    version: HiveVersion,
    places: &[u32],
    hints: &[[u8; 4]],
) -> Result<Bytes, AllocError>
    requires same { length places.now ≡ length hints.now }
    requires few { length places.now ≤ 500 }
    ensures { IfOk result (λ b. b ≡ list_text version places.now hints.now) }
{
    let mut bytes = Bytes::new(alloc);
    bytes.push(0x6c)?;
    bytes.push(second_byte(version))?;
    bytes.put_u16(places.len() as u16)?;
    append_entries(&mut bytes, places, hints)?;
    Ok(bytes)
}

/// Writes one list.
fn write_part(
    alloc: Global,
    out: &mut Bytes,
    version: HiveVersion,
    places: &[u32],
    hints: &[[u8; 4]],
) -> Result<(), AllocError>
    requires same { length places.now ≡ length hints.now }
    requires few { length places.now ≤ 500 }
    requires four { AreHints hints.now }
    ensures { OnOk result (out.new ≡ out.old ++ cell_text (list_text version places.now hints.now)) }
{
    let list = list_bytes(alloc, version, places, hints)?;
    put_cell(out, list.as_slice())
}

/// Writes lists of 500 entries and of the rest, that many of them.
fn write_parts(
    alloc: Global,
    out: &mut Bytes,
    version: HiveVersion,
    count: usize,
    places: &[u32],
    hints: &[[u8; 4]],
) -> Result<(), AllocError>
    requires same { length places.now ≡ length hints.now }
    requires four { AreHints hints.now }
    ensures { OnOk result (out.new ≡ out.old ++ text (parts version count places.now hints.now)) }
{
    let mut left = count;
    let mut rest = places;
    let mut rest_hints = hints;
    'parts: while left > 0 {
        let n = rest.len().min(500);
        let (first, more) = rest.split_at(n);
        let (first_hints, more_hints) = rest_hints.split_at(n);
        write_part(alloc, out, version, first, first_hints)?;
        rest = more;
        rest_hints = more_hints;
        left -= 1;
    }
    Ok(())
}

/// Where full lists begin that are in sequence, that many of them.
fn part_starts(alloc: Global, count: usize, at: usize) -> Result<Vec<u32>, AllocError>
    requires { at + 4008 * count < 4294967296 }
    ensures { IfOk result (λ v. v.items ≡ part_places count at) }
{
    let mut starts = Vec::new(alloc);
    let mut left = count;
    let mut place = at;
    'starts: while left > 0 {
        starts.push(place as u32)?;
        place += 4008;
        left -= 1;
    }
    Ok(starts)
}

/// Where the first list of a list of lists begins that is at this offset in bytes, with that many children.
pub fn first_part(n: usize, at: usize) -> usize
    requires few { n ≤ most_bins }
    requires room { at ≤ most_bins }
    ensures { result ≡ at + cell (4 + 4 * part_count n) }
{
    at + cell_size(4 + 4 * part_count(n))
}

/// Writes the list of lists and its lists.
#[tactic(auto, using(crate::proofs::Rows::lengths))]
fn write_list_of_lists(
    alloc: Global,
    out: &mut Bytes,
    version: HiveVersion,
    at: usize,
    places: &[u32],
    hints: &[[u8; 4]],
) -> Result<(), AllocError>
    requires same { length places.now ≡ length hints.now }
    requires four { AreHints hints.now }
    requires room { at + list_size (length places.now) ≤ most_bins }
    requires many { 501 ≤ length places.now }
    ensures { OnOk result (out.new ≡ out.old ++ text (list_cells version at places.now hints.now)) }
{
    let count = part_count(places.len());
    let starts = part_starts(alloc, count, first_part(places.len(), at))?;
    let list = ri_bytes(alloc, &starts)?;
    put_cell(out, list.as_slice())?;
    write_parts(alloc, out, version, count, places, hints)
}

/// Writes the subkey lists of children at these places and with these hints, to be at an offset in bytes:
/// one list of at most 500 entries, or a list of such.
#[tactic(auto, unfolding(hive_model::specs::Packed::list_cells))]
pub fn write_lists(
    alloc: Global,
    out: &mut Bytes,
    version: HiveVersion,
    at: usize,
    places: &[u32],
    hints: &[[u8; 4]],
) -> Result<(), AllocError>
    requires same { length places.now ≡ length hints.now }
    requires four { AreHints hints.now }
    requires room { at + list_size (length places.now) ≤ most_bins }
    ensures { OnOk result (out.new ≡ out.old ++ text (list_cells version at places.now hints.now)) }
{
    if places.len() == 0 {
        return Ok(());
    }
    if places.len() < 501 {
        return write_part(alloc, out, version, places, hints);
    }
    write_list_of_lists(alloc, out, version, at, places, hints)
}

/// Writes those of these keys.
pub(crate) fn write_key_lists(
    alloc: Global,
    out: &mut Bytes,
    version: HiveVersion,
    at: usize,
    places: &[u32],
    keys: &[Key],
) -> Result<(), AllocError>
    requires same { length places.now ≡ length keys.now }
    requires room { at + list_size (length places.now) ≤ most_bins }
    ensures { OnOk result (out.new ≡ out.old ++ text (list_cells version at places.now (map (hint version) keys.now))) }
{
    let hints = hints(alloc, version, keys)?;
    write_lists(alloc, out, version, at, places, &hints)
}
