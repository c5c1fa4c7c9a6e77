//! Whether a value holds some data, by its cells.

ghost use Rattle.std.specs.Prelude.{◌≡◌, ◌↔◌, ◌≤◌, ◌<◌, ℕ, List, true, length, take, Ok, IfOk};
ghost use Rattle.std.specs.Result.{IsOk};
ghost use Rattle.hive_model.specs.Tree.{Item};
ghost use Rattle.hive_model.specs.Stands.{big_bytes_at, data_of, item_at, joined_segments};
ghost use Rattle.hive_cells.specs.Sources.{cells_of};
ghost use Rattle.hive_edit.specs.Found.{HoldsValue};
ghost use Rattle.hive_edit.specs.Gone.{HasData, with_data};
ghost use Rattle.hive_look.specs.Places.{IsItemHere};

use crate::hive::HiveBytes;
use hive_cells::Source;
use hive_look::{db_in, key_at, segments_in, value_at};
use hive_pack::is_big;
use key_index::payload;
use nt_bytes::{Names, u32_at};
use std::alloc::{AllocError, Global};

/// How many bytes a full segment of big data holds.
const SEGMENT: u32 = 16_344;

/// Whether that many bytes of a payload, from its first on, are these.
fn begins(payload: &[u8], size: usize, bytes: &[u8]) -> bool
    requires { size ≤ length payload.now }
    ensures { (result ≡ true) ↔ (take size payload.now ≡ bytes.now) }
{
    let front = &payload[..size];
    front == bytes
}

/// Whether that many bytes in the segments at these offsets are these.
fn segments_are(cells: &Source, size: u32, offsets: &[u32], bytes: &[u8]) -> bool
    requires { IsOk (joined_segments (cells_of cells.now) size offsets.now) }
    ensures { (b : List ℕ) → joined_segments (cells_of cells.now) size offsets.now ≡ Ok b → ((result ≡ true) ↔ (b ≡ bytes.now)) }
{
    let mut left = size;
    let mut rest = offsets;
    let mut want = bytes;
    'segments: loop {
        let [at, more @ ..] = rest else {
            return want.is_empty();
        };
        let part = SEGMENT.min(left) as usize;
        if want.len() < part {
            return false;
        }
        if !begins(payload(cells, *at), part, &want[..part]) {
            return false;
        }
        want = &want[part..];
        left = left.saturating_sub(SEGMENT);
        rest = more;
    }
}

/// Whether big data of this size, whose cell is at a place, are these bytes.
fn big_are(
    alloc: Global,
    cells: &Source,
    size: u32,
    place: u32,
    bytes: &[u8],
) -> Result<bool, AllocError>
    requires { IsOk (big_bytes_at (cells_of cells.now) size place) }
    ensures { IfOk result (λ r. (b : List ℕ) → big_bytes_at (cells_of cells.now) size place ≡ Ok b → ((r ≡ true) ↔ (b ≡ bytes.now))) }
{
    let db = db_in(payload(cells, place))?;
    let segments = segments_in(alloc, payload(cells, db.list), db.segments)?;
    Ok(segments_are(cells, size, segments.as_slice(), bytes))
}

/// Whether data of this size, which are at a place or are in its number, are these bytes.
fn data_are(
    alloc: Global,
    cells: &Source,
    size: u32,
    place: u32,
    bytes: &[u8],
) -> Result<bool, AllocError>
    requires data { HasData (cells_of cells.now) size place }
    requires fits { size ≤ 2147483652 }
    ensures { IfOk result (λ r. (b : List ℕ) → data_of (cells_of cells.now) (with_data size place) ≡ Ok b → ((r ≡ true) ↔ (b ≡ bytes.now))) }
{
    if size >= 0x8000_0000 {
        return Ok(begins(&place.to_le_bytes(), (size - 0x8000_0000) as usize, bytes));
    }
    if size == 0 {
        return Ok(bytes.is_empty());
    }
    if is_big(cells.version, size as usize) {
        return big_are(alloc, cells, size, place, bytes);
    }
    Ok(begins(payload(cells, place), size as usize, bytes))
}

/// Whether the value at an offset has this type and these data.
fn value_is(
    alloc: Global,
    cells: &Source,
    at: u32,
    kind: u32,
    bytes: &[u8],
) -> Result<bool, AllocError>
    requires { IsItemHere (cells_of cells.now) at }
    ensures { IfOk result (λ r. (v : Item) → item_at (cells_of cells.now) at ≡ Ok v → ((r ≡ true) ↔ (v.kind ≡ kind) × (v.bytes ≡ bytes.now))) }
{
    let value = payload(cells, at);
    let own = u32_at(value, 12);
    let size = u32_at(value, 4);
    let place = u32_at(value, 8);
    if own != kind {
        return Ok(false);
    }
    data_are(alloc, cells, size, place, bytes)
}

impl HiveBytes {
    /// Whether the key that a path leads to has a value of this name, with this type and these data.
    pub fn has_value(
        &self,
        alloc: Global,
        path: &Names,
        name: &[u16],
        kind: u32,
        bytes: &[u8],
    ) -> Result<bool, AllocError>
        ensures { IfOk result (λ b. (b ≡ true) ↔ HoldsValue path.now name.now kind bytes.now self.now.tree) }
    {
        let source = Source {
            heap: self.cells.cells(),
            version: self.version,
        };
        match key_at(&source, self.root, path) {
            None => Ok(false),
            Some(key) => match value_at(&source, key, name) {
                None => Ok(false),
                Some(value) => value_is(alloc, &source, value, kind, bytes),
            },
        }
    }
}
