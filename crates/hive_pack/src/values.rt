//! The cells of values.

ghost use Rattle.std.specs.Prelude.{◌≡◌, ◌≤◌, ◌<◌, ◌+◌, ◌*◌, ◌++◌, length, OnOk, IfOk};
ghost use Rattle.std.specs.List.{All};
ghost use Rattle.hive_model.specs.Limits.{most_bins};
ghost use Rattle.hive_model.specs.Valid.{IsItem};
ghost use Rattle.hive_model.specs.Size.{segment_count, data_size, item_size, items_sum, items_size, class_size};
ghost use Rattle.hive_model.specs.Lists.{offsets_text};
ghost use Rattle.hive_model.specs.Packed.{text, cell_text, segment_places, segments, big_cells, data_cells, item_cells, cells_of_items, item_places, items_cells, class_cells};
ghost use Rattle.hive_pack.specs.Writes.{big_size};

use crate::forms::value_form;
use crate::sizes::{SEGMENT, SEGMENT_CELL, cell_size, is_big, segment_count};
use cell_forms::{DbForm, db_bytes, vk_bytes};
use nt_bytes::{Bytes, HiveVersion};
use reg_tree::Value;
use std::alloc::{AllocError, Global};

/// Writes a cell with this payload, filled with zeros.
#[tactic(auto, unfolding(hive_model::specs::Packed::filled), using(crate::proofs::Rows::cell_text_is))]
pub fn put_cell(out: &mut Bytes, payload: &[u8]) -> Result<(), AllocError>
    requires { length payload.now ≤ most_bins }
    ensures { OnOk result (out.new ≡ out.old ++ cell_text payload.now) }
{
    let size = cell_size(payload.len());
    out.put_u32((4294967296 - size as u64) as u32)?;
    out.append(payload)?;
    out.append_zeros(size - 4 - payload.len())
}

/// Writes the cell of a class, if it is not empty.
#[tactic(auto, unfolding(hive_model::specs::Packed::class_cells))]
pub(crate) fn write_class(out: &mut Bytes, class: &[u8]) -> Result<(), AllocError>
    requires { class_size class.now ≤ most_bins }
    ensures { OnOk result (out.new ≡ out.old ++ text (class_cells class.now)) }
{
    if class.len() == 0 {
        return Ok(());
    }
    put_cell(out, class)
}

/// The list of that many full segments that are in sequence from here on.
fn segment_list(alloc: Global, count: usize, at: usize) -> Result<Bytes, AllocError>
    requires { at + 16352 * count < 4294967296 }
    ensures { IfOk result (λ b. b ≡ offsets_text (segment_places count at)) }
{
    let mut list = Bytes::new(alloc);
    let mut left = count;
    let mut place = at;
    'places: while left > 0 {
        list.put_u32(place as u32)?;
        place += SEGMENT_CELL;
        left -= 1;
    }
    Ok(list)
}

/// Writes segments of 16,344 bytes and of the rest, that many of them.
fn write_segments(out: &mut Bytes, count: usize, bytes: &[u8]) -> Result<(), AllocError>
    ensures { OnOk result (out.new ≡ out.old ++ text (segments count bytes.now)) }
{
    let mut left = count;
    let mut rest = bytes;
    'segments: while left > 0 {
        let n = rest.len().min(SEGMENT);
        let (first, more) = rest.split_at(n);
        put_cell(out, first)?;
        rest = more;
        left -= 1;
    }
    Ok(())
}

/// Writes data in segments, to be at a place: `db`, the list of the segments, and the segments.
fn write_big(alloc: Global, out: &mut Bytes, at: usize, bytes: &[u8]) -> Result<(), AllocError>
    requires room { at + big_size (length bytes.now) ≤ most_bins }
    requires few { length bytes.now ≤ most_bins }
    ensures { OnOk result (out.new ≡ out.old ++ text (big_cells at (segment_count (length bytes.now)) bytes.now)) }
{
    let count = segment_count(bytes.len());
    let list_at = at + 16;
    let form = DbForm {
        segments: count as u16,
        list: list_at as u32,
    };
    let cell = db_bytes(alloc, &form)?;
    put_cell(out, cell.as_slice())?;
    let list = segment_list(alloc, count, list_at + cell_size(4 * count))?;
    put_cell(out, list.as_slice())?;
    write_segments(out, count, bytes)
}

/// Writes the cells of a value's data, to be at this offset in bytes, where they are over four bytes:
/// one, or in version 1.5 for over 16,344 bytes those of segments.
pub fn write_data(
    alloc: Global,
    out: &mut Bytes,
    version: HiveVersion,
    at: usize,
    bytes: &[u8],
) -> Result<(), AllocError>
    requires room { at + data_size version bytes.now ≤ most_bins }
    ensures { OnOk result (out.new ≡ out.old ++ text (data_cells version at bytes.now)) }
{
    if is_big(version, bytes.len()) {
        return write_big(alloc, out, at, bytes);
    }
    if bytes.len() <= 4 {
        return Ok(());
    }
    put_cell(out, bytes)
}

/// Writes a value's cell, and those of its data.
#[tactic(auto, unfolding(hive_model::specs::Packed::item_cells), using(crate::proofs::Rows::lengths))]
fn write_value(
    alloc: Global,
    out: &mut Bytes,
    version: HiveVersion,
    value: &Value,
) -> Result<(), AllocError>
    requires valid { IsItem value.now }
    requires room { length out.old + item_size version value.now ≤ most_bins }
    ensures { OnOk result (out.new ≡ out.old ++ text (item_cells version (length out.old) value.now)) }
{
    let form = value_form(alloc, out.len(), value)?;
    let cell = vk_bytes(alloc, &form)?;
    put_cell(out, cell.as_slice())?;
    let data = out.len();
    write_data(alloc, out, version, data, value.data())
}

/// Writes the values, and answers the list of their places.
#[tactic(auto, using(crate::proofs::Rows::lengths))]
fn write_each_value(
    alloc: Global,
    out: &mut Bytes,
    version: HiveVersion,
    values: &[Value],
) -> Result<Bytes, AllocError>
    requires valid { All IsItem values.now }
    requires room { length out.old + items_sum version values.now ≤ most_bins }
    ensures written { OnOk result (out.new ≡ out.old ++ text (cells_of_items version (length out.old) values.now)) }
    ensures places { IfOk result (λ p. p ≡ offsets_text (item_places version (length out.old) values.now)) }
{
    let mut places = Bytes::new(alloc);
    let mut rest = values;
    'values: loop {
        let [value, more @ ..] = rest else {
            return Ok(places);
        };
        places.put_u32(out.len() as u32)?;
        write_value(alloc, out, version, value)?;
        rest = more;
    }
}

/// Writes the value list and the values, if there are any.
#[tactic(auto, unfolding(hive_model::specs::Packed::items_cells), using(crate::proofs::Rows::lengths))]
pub(crate) fn write_values(
    alloc: Global,
    out: &mut Bytes,
    version: HiveVersion,
    values: &[Value],
) -> Result<(), AllocError>
    requires valid { All IsItem values.now }
    requires room { length out.old + items_size version values.now ≤ most_bins }
    ensures { OnOk result (out.new ≡ out.old ++ text (items_cells version (length out.old) values.now)) }
{
    if values.len() == 0 {
        return Ok(());
    }
    let at = out.len();
    out.append_zeros(cell_size(4 * values.len()))?;
    let places = write_each_value(alloc, out, version, values)?;
    let mut list = Bytes::new(alloc);
    put_cell(&mut list, places.as_slice())?;
    out.overwrite(at, list.as_slice());
    Ok(())
}
