//! The values of a key.

ghost use Rattle.std.specs.Prelude.{◌≡◌, ◌≤◌, ◌+◌, ◌*◌, length, find, option_and_then, slice_range};
ghost use Rattle.std.specs.Option.{IfSome};
ghost use Rattle.std.specs.Result.{IsOk};
ghost use Rattle.std.specs.List.{All};
ghost use Rattle.nt_bytes.specs.Fields.{u16_in};
ghost use Rattle.nt_bytes.specs.Folding.{folds_same};
ghost use Rattle.nt_bytes.specs.Text.{wide_of};
ghost use Rattle.hive_model.specs.StoredNames.{stored_name};
ghost use Rattle.hive_model.specs.KeyValue.{is_narrow_value, key_value_at};
ghost use Rattle.hive_model.specs.Lists.{numbers_in};
ghost use Rattle.hive_model.specs.Footprint.{is_value_named};
ghost use Rattle.hive_cells.specs.Sources.{cells_of};
ghost use Rattle.hive_look.specs.Places.{IsKeyAt, IsItemHere, dword_at, value_name_of, value_place};

use hive_cells::Source;
use key_index::payload;
use nt_bytes::{fold, u16_at, u32_at};

// ---- names, compared where they are stored

/// Whether a name and one that is stored with one byte a unit fold to one.
fn same_narrow(name: &[u16], stored: &[u8]) -> bool
    ensures { result ≡ folds_same name.now stored.now }
{
    let mut xs = name;
    let mut ys = stored;
    'units: loop {
        let [x, more_xs @ ..] = xs else {
            return ys.is_empty();
        };
        let [y, more_ys @ ..] = ys else {
            return false;
        };
        if fold(*x) != fold(u16::from(*y)) {
            return false;
        }
        xs = more_xs;
        ys = more_ys;
    }
}

/// Whether a name and one that is stored with two bytes a unit fold to one.
fn same_wide(name: &[u16], stored: &[u8]) -> bool
    ensures { result ≡ folds_same name.now (wide_of stored.now) }
{
    let mut xs = name;
    let mut ys = stored;
    'units: loop {
        let [low, high, more_ys @ ..] = ys else {
            return xs.is_empty();
        };
        let [x, more_xs @ ..] = xs else {
            return false;
        };
        if fold(*x) != fold(u16::from_le_bytes([*low, *high])) {
            return false;
        }
        xs = more_xs;
        ys = more_ys;
    }
}

fn same_stored(name: &[u16], narrow: bool, stored: &[u8]) -> bool
    ensures { result ≡ folds_same name.now (stored_name narrow stored.now) }
{
    if narrow {
        same_narrow(name, stored)
    } else {
        same_wide(name, stored)
    }
}

/// The bytes that the name of the value in a payload is stored in.
pub(crate) fn stored_bytes(value: &[u8]) -> &[u8]
    requires { IsOk (key_value_at value.now) }
    ensures { result.now ≡ slice_range value.now 20 (20 + u16_in value.now 2) }
{
    let size = u16_at(value, 2);
    let end = 20 + usize::from(size);
    &value[20..end]
}

/// Whether the name of the value in a payload is stored with one byte a unit.
pub(crate) fn is_narrow(value: &[u8]) -> bool
    requires { IsOk (key_value_at value.now) }
    ensures { result ≡ is_narrow_value (u16_in value.now 16) }
{
    let flags = u16_at(value, 16);
    flags % 2 == 1
}

/// Whether the value in a payload has a name, letters of either case taken for one.
fn is_named(value: &[u8], name: &[u16]) -> bool
    requires { IsOk (key_value_at value.now) }
    ensures { result ≡ folds_same name.now (value_name_of value.now) }
{
    let narrow = is_narrow(value);
    let stored = stored_bytes(value);
    same_stored(name, narrow, stored)
}

// ---- values by name

/// The first of that many offsets in a value list at which the value has a name.
fn find_value(cells: &Source, list: &[u8], count: u32, name: &[u16]) -> Option<u32>
    requires long { 4 * count ≤ length list.now }
    requires values { All (IsItemHere (cells_of cells.now)) (numbers_in 4 count list.now) }
    ensures place { result ≡ find (is_value_named (cells_of cells.now) name.now) (numbers_in 4 count list.now) }
    ensures stands { IfSome result (IsItemHere (cells_of cells.now)) }
{
    let mut rest = list;
    let mut left = count;
    while left > 0 {
        let at = u32_at(rest, 0);
        let value = payload(cells, at);
        if is_named(value, name) {
            return Some(at);
        }
        rest = &rest[4..];
        left -= 1;
    }
    None
}

/// The offset of the first value that has a name, of the key at an offset. `None` where there is none.
pub fn value_at(cells: &Source, at: u32, name: &[u16]) -> Option<u32>
    requires { IsKeyAt (cells_of cells.now) at }
    ensures place { result ≡ value_place (cells_of cells.now) name.now at }
    ensures stands { IfSome result (IsItemHere (cells_of cells.now)) }
{
    let node = payload(cells, at);
    let count = u32_at(node, 36);
    if count == 0 {
        return None;
    }
    let place = u32_at(node, 40);
    let list = payload(cells, place);
    find_value(cells, list, count, name)
}

// ---- numbers

/// The number that the value at an offset is, where it is of type 4 and has four bytes. These are in the
/// value itself, or in a cell of their own.
fn number_at(cells: &Source, at: u32) -> Option<u32>
    requires { IsItemHere (cells_of cells.now) at }
    ensures { result ≡ dword_at (cells_of cells.now) at }
{
    let value = payload(cells, at);
    let kind = u32_at(value, 12);
    if kind != 4 {
        return None;
    }
    let size = u32_at(value, 4);
    let place = u32_at(value, 8);
    if size == 0x8000_0004 {
        return Some(place);
    }
    if size != 4 {
        return None;
    }
    let data = payload(cells, place);
    Some(u32_at(data, 0))
}

/// The number of the first value that has a name, of the key at an offset. `None` where there is no such value, and where it is
/// no DWORD.
pub fn dword_under(cells: &Source, at: u32, name: &[u16]) -> Option<u32>
    requires { IsKeyAt (cells_of cells.now) at }
    ensures { result ≡ option_and_then (dword_at (cells_of cells.now)) (value_place (cells_of cells.now) name.now at) }
{
    let value = value_at(cells, at, name)?;
    number_at(cells, value)
}
