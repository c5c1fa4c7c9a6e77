//! The data of a value.

ghost use Rattle.hive_model.specs.Size.{is_big as is_big_data};
ghost use Rattle.std.specs.Prelude.{◌≡◌};
ghost use Rattle.hive_model.specs.Stands.{big_bytes_at, data_of, joined_segments};
ghost use Rattle.cell_forms.specs.Views.{key_value_of};
ghost use Rattle.hive_cells.specs.Sources.{cells_of};
ghost use Rattle.key_command.specs.hive_levels.Reading.{Answers, celled_bytes};

use crate::hive_levels::cells::{SEGMENT, big_data_at, bytes_at, offsets_at};
use cell_forms::{VkForm, data_inside};
use hive_cells::Source;
use nt_bytes::{Bytes, HiveVersion, ReadStop};
use std::alloc::Global;

/// Data of more bytes than a segment holds are big in version 1.5.
fn is_big(version: HiveVersion, size: u32) -> bool
    ensures { result ≡ is_big_data version size }
{
    match version {
        HiveVersion::V3 => false,
        HiveVersion::V5 => size > SEGMENT,
    }
}

/// The bytes of the segments at these offsets, joined in order.
fn segments(alloc: Global, cells: &Source, size: u32, offsets: &[u32]) -> Result<Bytes, ReadStop>
    ensures { Answers (λ b. b) (joined_segments (cells_of cells.now) size offsets.now) result }
{
    let mut bytes = Bytes::new(alloc);
    let mut left = size;
    let mut rest = offsets;
    'segments: loop {
        let [at, more @ ..] = rest else {
            return Ok(bytes);
        };
        let part = bytes_at(alloc, cells, SEGMENT.min(left), *at)?;
        bytes.append(part.as_slice())?;
        left = left.saturating_sub(SEGMENT);
        rest = more;
    }
}

/// Big data: their cell, the list of their segments, and the segments.
#[tactic(auto, unfolding(hive_model::specs::Stands::big_bytes_at))]
fn big_bytes(alloc: Global, cells: &Source, size: u32, at: u32) -> Result<Bytes, ReadStop>
    ensures { Answers (λ b. b) (big_bytes_at (cells_of cells.now) size at) result }
{
    let big = big_data_at(cells, size, at)?;
    let offsets = offsets_at(alloc, cells, u32::from(big.segments), big.list)?;
    segments(alloc, cells, size, offsets.as_slice())
}

/// Data in a cell, or big data.
fn celled(alloc: Global, cells: &Source, size: u32, at: u32) -> Result<Bytes, ReadStop>
    ensures { Answers (λ b. b) (celled_bytes (cells_of cells.now) size at) result }
{
    if is_big(cells.version, size) {
        return big_bytes(alloc, cells, size, at);
    }
    bytes_at(alloc, cells, size, at)
}

/// The data: in the value itself, or in cells.
#[tactic(auto, unfolding(hive_model::specs::Stands::data_of))]
pub(crate) fn data_of(alloc: Global, cells: &Source, value: &VkForm) -> Result<Bytes, ReadStop>
    ensures { Answers (λ b. b) (data_of (cells_of cells.now) (key_value_of value.now)) result }
{
    let held = data_inside(alloc, value)?;
    match held {
        Some(bytes) => Ok(bytes),
        None => celled(alloc, cells, value.size, value.offset),
    }
}
