//! How many bytes a value takes in packed form, by the cells that it is in.

ghost use Rattle.std.specs.Prelude.{◌≡◌, ◌<◌, ◌≤◌, ◌%◌, length, false, Ok};
ghost use Rattle.std.specs.Result.{IsOk};
ghost use Rattle.nt_bytes.specs.Text.{wide_of};
ghost use Rattle.hive_model.specs.StoredNames.{stored_name};
ghost use Rattle.hive_model.specs.KeyValue.{key_value_at};
ghost use Rattle.hive_model.specs.Size.{cell, cells_sum, data_sizes, is_narrow, item_size, name_bytes, segment_count, segment_sizes};
ghost use Rattle.hive_model.specs.Stands.{item_at};
ghost use Rattle.hive_model.specs.Tree.{Item};
ghost use Rattle.hive_cells.specs.Sources.{cells_of};
ghost use Rattle.hive_look.specs.Places.{IsItemHere, value_name_of};

use crate::values::{is_narrow, stored_bytes};
use hive_cells::Source;
use hive_pack::is_big;
use key_index::payload;
use nt_bytes::{HiveVersion, u32_at};

/// How many bytes the cell of a payload of that many bytes takes.
pub fn cell_len(payload: u64) -> u64
    requires { payload ≤ 1099511627776 }
    ensures { result ≡ cell payload }
{
    (payload + 11) / 8 * 8
}

/// Whether each unit of a name that is stored with two bytes a unit is below 256.
fn is_low(stored: &[u8]) -> bool
    ensures { result ≡ is_narrow (wide_of stored.now) }
{
    let mut rest = stored;
    'units: loop {
        let [low, high, more @ ..] = rest else {
            return true;
        };
        let unit = u16::from_le_bytes([*low, *high]);
        if unit > 255 {
            return false;
        }
        rest = more;
    }
}

/// How many bytes a name takes that is stored so.
fn stored_len(narrow: bool, stored: &[u8]) -> u64
    requires few { length stored.now ≤ 65536 }
    requires whole { narrow ≡ false → length stored.now % 2 ≡ 0 }
    ensures exact { result ≡ name_bytes (stored_name narrow stored.now) }
    ensures few { result ≤ length stored.now }
{
    let size = stored.len() as u64;
    if narrow {
        return size;
    }
    if is_low(stored) { size / 2 } else { size }
}

/// How many bytes the name of the value in a payload takes.
fn name_len(value: &[u8]) -> u64
    requires { IsOk (key_value_at value.now) }
    ensures exact { result ≡ name_bytes (value_name_of value.now) }
    ensures few { result ≤ 65536 }
{
    let narrow = is_narrow(value);
    let stored = stored_bytes(value);
    stored_len(narrow, stored)
}

/// The cells of the segments of that many bytes.
fn segments_len(n: u64) -> u64
    requires some { 0 < n }
    requires few { n < 4294967296 }
    ensures exact { result ≡ cells_sum (segment_sizes (segment_count n) n) }
    ensures few { result ≤ 4400000000 }
{
    let full = (n + 16343) / 16344 - 1;
    full * 16352 + cell_len(n - full * 16344)
}

/// How many bytes the packed cells for data of that many bytes take.
pub fn data_len(version: HiveVersion, n: u32) -> u64
    ensures exact { result ≡ cells_sum (data_sizes version n) }
    ensures few { result ≤ 8589934592 }
{
    let size = u64::from(n);
    if is_big(version, n as usize) {
        let count = (size + 16343) / 16344;
        return 16 + cell_len(4 * count) + segments_len(size);
    }
    if n > 4 { cell_len(size) } else { 0 }
}

/// How many bytes the packed cells for the value at an offset, with its data, take.
pub fn value_len(cells: &Source, at: u32) -> u64
    requires { IsItemHere (cells_of cells.now) at }
    ensures exact { (v : Item) → item_at (cells_of cells.now) at ≡ Ok v → result ≡ item_size cells.now.version v }
    ensures few { result ≤ 8590065664 }
{
    let value = payload(cells, at);
    let own = cell_len(20 + name_len(value));
    let size = u32_at(value, 4);
    if size >= 0x8000_0000 {
        return own;
    }
    own + data_len(cells.version, size)
}
