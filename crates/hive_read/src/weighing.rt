//! What a key has but its children, judged: how many bytes its cells take, and no copy of what is in them.

ghost use Rattle.std.specs.Prelude.{◌≡◌, ℕ, List, [], Ok, is_some, sum_by};
ghost use Rattle.hive_model.specs.KeyValue.{data_inside};
ghost use Rattle.hive_model.specs.Size.{class_size, data_size, item_size, items_size, security_size};
ghost use Rattle.nt_bytes.specs.Counts.{capped};
ghost use Rattle.hive_model.specs.Walk.{big_checks, class_checks, data_checks, security_checks, segments_checks, value_checks, values_in_turn, values_checks};
ghost use Rattle.hive_model.specs.Stands.{big_bytes_at, class_of, data_of, item_at, items_at, joined_segments, security_of, values_of};
ghost use Rattle.cell_forms.specs.Views.{node_seen, value_seen};
ghost use Rattle.hive_read.specs.Celled.{celled_bytes, celled_checks};
ghost use Rattle.hive_read.specs.Judged.{AddsName, Counts, HasLength, value_list_size};
ghost use Rattle.hive_cells.specs.Sources.{cells_of};
ghost use Rattle.hive_read.specs.Taken.{Knows};
ghost use Rattle.hive_read.specs.Walked.{walk, Steps};

use crate::data::{SEGMENT, is_big};
use crate::sizes::stored_size;
use crate::taken::Taken;
use crate::used::Used;
use crate::uses::{take_name, use_big_data, use_front, use_offsets, use_security_slice, use_value};
use cell_forms::{NkSlice, VkSlice};
use hive_cells::Source;
use nt_bytes::ReadStop;
use reg_tree::sizes::{cell_size, class_size, data_size, security_size};
use std::alloc::Global;

// ---- a key's class and security

/// A key's descriptor, and the offset of its cell.
#[derive(Clone, Copy)]
pub struct Descriptor<'a> {
    pub at: u32,
    pub bytes: &'a [u8],
}

/// The cell of a key's class.
#[tactic(auto, unfolding(hive_model::specs::Walk::class_checks, hive_model::specs::Stands::class_of))]
pub(crate) fn judge_class(cells: &Source, used: &mut Used, node: &NkSlice) -> Result<u64, ReadStop>
    ensures { Steps (Counts (λ b. class_of (cells_of cells.now) (node_seen node.now) ≡ Ok b) class_size)
        (walk (cells_of cells.now) used.old (class_checks (cells_of cells.now) (node_seen node.now))) used.new result }
{
    if node.class_length == 0 {
        return Ok(0);
    }
    let class = use_front(cells, used, u32::from(node.class_length), node.class)?;
    Ok(class_size(class))
}

/// A key's security descriptor, empty where it has none.
#[tactic(auto, unfolding(hive_model::specs::Walk::security_checks, hive_model::specs::Stands::security_of))]
pub(crate) fn judge_security<'a>(
    cells: &Source<'a>,
    used: &mut Used,
    node: &NkSlice,
) -> Result<&'a [u8], ReadStop>
    ensures { Steps (λ d. security_of (cells_of cells.now) (node_seen node.now) ≡ Ok d.now)
        (walk (cells_of cells.now) used.old (security_checks (cells_of cells.now) (node_seen node.now))) used.new result }
{
    if node.security == 0xffff_ffff {
        return Ok(&[]);
    }
    let security = use_security_slice(cells, used, node.security)?;
    Ok(security.descriptor)
}

/// The cell of a descriptor under a key with another one. Two in one cell are the same.
pub(crate) fn descriptor_size(shared: &Descriptor, own: &Descriptor) -> u64
    requires { own.now.at ≡ shared.now.at → own.now.bytes.now ≡ shared.now.bytes.now }
    ensures { result ≡ capped (security_size shared.now.bytes.now own.now.bytes.now) }
{
    if own.at == shared.at {
        return 0;
    }
    security_size(shared.bytes, own.bytes)
}

// ---- a value's data

// How many bytes the segments at these offsets hold.
fn judge_segments(
    cells: &Source,
    used: &mut Used,
    size: u32,
    offsets: &[u32],
) -> Result<u32, ReadStop>
    ensures { Steps (HasLength (joined_segments (cells_of cells.now) size offsets.now))
        (walk (cells_of cells.now) used.old (segments_checks (cells_of cells.now) size offsets.now)) used.new result }
{
    let mut left = size;
    let mut rest = offsets;
    'segments: loop {
        let [at, more @ ..] = rest else {
            return Ok(size - left);
        };
        let _part = use_front(cells, used, SEGMENT.min(left), *at)?;
        left = left.saturating_sub(SEGMENT);
        rest = more;
    }
}

// How many bytes big data have.
fn judge_big(
    alloc: Global,
    cells: &Source,
    used: &mut Used,
    size: u32,
    at: u32,
) -> Result<u32, ReadStop>
    ensures { Steps (HasLength (big_bytes_at (cells_of cells.now) size at))
        (walk (cells_of cells.now) used.old (big_checks (cells_of cells.now) size at)) used.new result }
{
    let big = use_big_data(cells, used, size, at)?;
    let offsets = use_offsets(alloc, cells, used, u32::from(big.segments), big.list)?;
    judge_segments(cells, used, size, offsets.as_slice())
}

// How many bytes data in a cell, or big data, have.
fn judge_celled(
    alloc: Global,
    cells: &Source,
    used: &mut Used,
    size: u32,
    at: u32,
) -> Result<u32, ReadStop>
    ensures { Steps (HasLength (celled_bytes (cells_of cells.now) size at))
        (walk (cells_of cells.now) used.old (celled_checks (cells_of cells.now) size at)) used.new result }
{
    if is_big(cells.version, size) {
        return judge_big(alloc, cells, used, size, at);
    }
    let _bytes = use_front(cells, used, size, at)?;
    Ok(size)
}

// Does the value hold its data itself, in place or as none?
fn holds_data(value: &VkSlice) -> bool
    ensures { result ≡ is_some (data_inside (value_seen value.now)) }
{
    value.size >= 0x8000_0000 || value.size == 0
}

// The cells of a value's data.
#[tactic(auto, unfolding(hive_model::specs::Walk::data_checks, hive_model::specs::Stands::data_of))]
fn judge_data(
    alloc: Global,
    cells: &Source,
    used: &mut Used,
    value: &VkSlice,
) -> Result<u64, ReadStop>
    ensures { Steps (Counts (λ b. data_of (cells_of cells.now) (value_seen value.now) ≡ Ok b) (data_size cells.now.version))
        (walk (cells_of cells.now) used.old (data_checks (cells_of cells.now) (value_seen value.now))) used.new result }
{
    if holds_data(value) {
        return Ok(0);
    }
    let size = judge_celled(alloc, cells, used, value.size, value.offset)?;
    Ok(data_size(cells.version, u64::from(size)))
}

// ---- values

// The cells of a value.
fn judge_value<'a>(
    alloc: Global,
    cells: &Source<'a>,
    used: &mut Used,
    taken: &mut Taken<'a>,
    at: u32,
) -> Result<u64, ReadStop>
    ensures { (names : List (List ℕ)) → Knows taken.old names →
        Steps (Counts (λ v. (item_at (cells_of cells.now) at ≡ Ok v) × AddsName taken.old taken.new v.name) (item_size cells.now.version))
        (walk (cells_of cells.now) used.old (value_checks (cells_of cells.now) names at)) used.new result }
{
    let seen = use_value(cells, used, at)?;
    take_name(alloc, taken, seen.name, at)?;
    let data = judge_data(alloc, cells, used, &seen)?;
    let own = stored_size(20, seen.name);
    Ok(own.saturating_add(data))
}

// The cells of the values at these offsets, in sequence.
fn judge_in_turn(
    alloc: Global,
    cells: &Source,
    used: &mut Used,
    offsets: &[u32],
) -> Result<u64, ReadStop>
    ensures { Steps (Counts (λ vs. items_at (cells_of cells.now) offsets.now ≡ Ok vs) (sum_by (item_size cells.now.version)))
        (walk (cells_of cells.now) used.old (values_in_turn (cells_of cells.now) [] offsets.now)) used.new result }
{
    let mut taken = Taken::new(alloc);
    let mut total: u64 = 0;
    let mut rest = offsets;
    'values: loop {
        let [at, more @ ..] = rest else {
            return Ok(total);
        };
        let value = judge_value(alloc, cells, used, &mut taken, *at)?;
        total = total.saturating_add(value);
        rest = more;
    }
}

// The cell of a list of that many values.
fn value_list_len(count: u64) -> u64
    ensures { result ≡ capped (value_list_size count) }
{
    if count == 0 {
        return 0;
    }
    cell_size(count.saturating_mul(4))
}

/// The cells of a key's values, and of their list.
pub(crate) fn judge_values(
    alloc: Global,
    cells: &Source,
    used: &mut Used,
    node: &NkSlice,
) -> Result<u64, ReadStop>
    ensures { Steps (Counts (λ vs. values_of (cells_of cells.now) (node_seen node.now) ≡ Ok vs) (items_size cells.now.version))
        (walk (cells_of cells.now) used.old (values_checks (cells_of cells.now) (node_seen node.now))) used.new result }
{
    if node.value_count == 0 {
        return Ok(0);
    }
    let offsets = use_offsets(alloc, cells, used, node.value_count, node.value_list)?;
    let found = offsets.as_slice();
    let values = judge_in_turn(alloc, cells, used, found)?;
    let list = value_list_len(found.len() as u64);
    Ok(list.saturating_add(values))
}
