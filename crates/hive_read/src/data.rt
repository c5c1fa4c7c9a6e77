//! The data of a value.

ghost use Rattle.std.specs.Prelude.{◌≡◌, Ok};
ghost use Rattle.hive_model.specs.Size.{is_big as is_big_data};
ghost use Rattle.hive_model.specs.Walk.{big_checks, data_checks, segments_checks};
ghost use Rattle.hive_model.specs.Stands.{big_bytes_at, data_of, joined_segments};
ghost use Rattle.cell_forms.specs.Views.{key_value_of};
ghost use Rattle.hive_read.specs.Celled.{celled_bytes, celled_checks};
ghost use Rattle.hive_cells.specs.Sources.{cells_of};
ghost use Rattle.hive_read.specs.Walked.{walk, Steps};

use crate::used::Used;
use crate::uses::{stop, use_big_data, use_bytes, use_front, use_offsets};
use cell_forms::{VkForm, data_inside};
use hive_cells::Source;
use nt_bytes::{Bytes, HiveVersion, ReadStop};
use std::alloc::Global;

/// How many bytes a full segment of big data holds.
pub(crate) const SEGMENT: u32 = 16_344;

/// Data of more bytes than a segment holds are big in version 1.5.
pub(crate) fn is_big(version: HiveVersion, size: u32) -> bool
    ensures { result ≡ is_big_data version size }
{
    match version {
        HiveVersion::V3 => false,
        HiveVersion::V5 => size > SEGMENT,
    }
}

// The bytes of the segments at these offsets, joined in order.
fn read_segments(
    alloc: Global,
    cells: &Source,
    used: &mut Used,
    size: u32,
    offsets: &[u32],
) -> Result<Bytes, ReadStop>
    ensures { Steps (λ b. joined_segments (cells_of cells.now) size offsets.now ≡ Ok b)
        (walk (cells_of cells.now) used.old (segments_checks (cells_of cells.now) size offsets.now)) used.new result }
{
    let mut bytes = Bytes::new(alloc);
    let mut left = size;
    let mut rest = offsets;
    'segments: loop {
        let [at, more @ ..] = rest else {
            return Ok(bytes);
        };
        let part = use_front(cells, used, SEGMENT.min(left), *at)?;
        bytes.append(part)?;
        left = left.saturating_sub(SEGMENT);
        rest = more;
    }
}

// Big data: their cell, the list of their segments, and each segment in order.
fn read_big(
    alloc: Global,
    cells: &Source,
    used: &mut Used,
    size: u32,
    at: u32,
) -> Result<Bytes, ReadStop>
    ensures { Steps (λ b. big_bytes_at (cells_of cells.now) size at ≡ Ok b)
        (walk (cells_of cells.now) used.old (big_checks (cells_of cells.now) size at)) used.new result }
{
    let big = use_big_data(cells, used, size, at)?;
    let offsets = use_offsets(alloc, cells, used, u32::from(big.segments), big.list)?;
    read_segments(alloc, cells, used, size, offsets.as_slice())
}

// Data in a cell, or big data.
fn read_celled(
    alloc: Global,
    cells: &Source,
    used: &mut Used,
    size: u32,
    at: u32,
) -> Result<Bytes, ReadStop>
    ensures { Steps (λ b. celled_bytes (cells_of cells.now) size at ≡ Ok b)
        (walk (cells_of cells.now) used.old (celled_checks (cells_of cells.now) size at)) used.new result }
{
    if is_big(cells.version, size) {
        return read_big(alloc, cells, used, size, at);
    }
    use_bytes(alloc, cells, used, size, at)
}

/// The data: in the value itself, or in cells.
#[tactic(auto, unfolding(hive_model::specs::Walk::data_checks, hive_model::specs::Stands::data_of))]
pub(crate) fn read_data(
    alloc: Global,
    cells: &Source,
    used: &mut Used,
    value: &VkForm,
) -> Result<Bytes, ReadStop>
    ensures { Steps (λ b. data_of (cells_of cells.now) (key_value_of value.now) ≡ Ok b)
        (walk (cells_of cells.now) used.old (data_checks (cells_of cells.now) (key_value_of value.now))) used.new result }
{
    let held = data_inside(alloc, value)?;
    match held {
        Some(bytes) => Ok(bytes),
        None => read_celled(alloc, cells, used, value.size, value.offset),
    }
}
