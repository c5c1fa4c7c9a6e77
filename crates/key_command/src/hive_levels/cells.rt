//! Cells, read for their forms.

ghost use Rattle.std.specs.Prelude.{◌≡◌};
ghost use Rattle.nt_bytes.specs.declared.fault.ReadStop.TheVariants.{Fault};
ghost use Rattle.hive_model.specs.Forms.{Gives, bytes_in};
ghost use Rattle.hive_model.specs.KeyNode.{key_node_at};
ghost use Rattle.hive_model.specs.KeyValue.{key_value_at};
ghost use Rattle.hive_model.specs.Security.{security_at};
ghost use Rattle.hive_model.specs.Lists.{list_at, offsets_in};
ghost use Rattle.hive_model.specs.Size.{segment_count as segments_of};
ghost use Rattle.hive_model.specs.Walk.{reading, big_data_of, leaf_at};
ghost use Rattle.cell_forms.specs.Views.{big_data_of as form_of, node_seen, security_of, subkey_list_of, value_seen};
ghost use Rattle.hive_cells.specs.Sources.{cells_of};
ghost use Rattle.key_command.specs.hive_levels.Reading.{Answers};

use cell_forms::{
    DbForm, ListForm, ListKind, NkSlice, Offsets, SkForm, VkSlice, read_bytes, read_db, read_list,
    read_offsets, read_sk, see_nk, see_vk,
};
use hive_cells::Source;
use nt_bytes::{Bytes, HiveFault, HiveFaultKind, ReadStop};
use std::alloc::Global;

/// How many bytes a full segment of big data holds.
pub(crate) const SEGMENT: u32 = 16_344;

/// A fault of this kind at this offset.
fn stop(kind: HiveFaultKind, at: u32) -> ReadStop
    ensures { result ≡ Fault (record { kind = kind; at = at }) }
{
    ReadStop::Fault(HiveFault { kind, at })
}

/// The payload of the cell at an offset.
fn payload_at<'a>(cells: &Source<'a>, at: u32) -> Result<&'a [u8], ReadStop>
    ensures { Answers (λ p. p.now) ((cells_of cells.now).payload at) result }
{
    let payload = cells.heap.payload(at)?;
    Ok(payload)
}

/// The key node at an offset.
pub(crate) fn node_at<'a>(cells: &Source<'a>, at: u32) -> Result<NkSlice<'a>, ReadStop>
    ensures { Answers node_seen (reading key_node_at (cells_of cells.now) at) result }
{
    let payload = payload_at(cells, at)?;
    see_nk(payload, at)
}

/// The value at an offset, but for data that it does not hold itself.
pub(crate) fn value_at<'a>(cells: &Source<'a>, at: u32) -> Result<VkSlice<'a>, ReadStop>
    ensures { Answers value_seen (reading key_value_at (cells_of cells.now) at) result }
{
    let payload = payload_at(cells, at)?;
    see_vk(payload, at)
}

/// The security cell at an offset.
pub(crate) fn security_at(alloc: Global, cells: &Source, at: u32) -> Result<SkForm, ReadStop>
    ensures { Answers security_of (reading security_at (cells_of cells.now) at) result }
{
    let payload = payload_at(cells, at)?;
    read_sk(alloc, payload, at)
}

/// The list of subkeys at an offset.
pub(crate) fn list_at(alloc: Global, cells: &Source, at: u32) -> Result<ListForm, ReadStop>
    ensures { Answers subkey_list_of (reading list_at (cells_of cells.now) at) result }
{
    let payload = payload_at(cells, at)?;
    read_list(alloc, payload, at)
}

/// The entries of a list that is no list of lists.
#[tactic(auto, unfolding(hive_model::specs::Walk::leaf_at))]
fn leaf_form(alloc: Global, payload: &[u8], at: u32) -> Result<Offsets, ReadStop>
    ensures { Gives (λ o. o) at result (leaf_at payload.now) }
{
    let list = read_list(alloc, payload, at)?;
    match list.kind {
        ListKind::Ri => Err(stop(HiveFaultKind::FormKind, at)),
        _ => Ok(list.offsets),
    }
}

/// The entries of the list at an offset, which is no list of lists.
pub(crate) fn leaf_at(alloc: Global, cells: &Source, at: u32) -> Result<Offsets, ReadStop>
    ensures { Answers (λ o. o) (reading leaf_at (cells_of cells.now) at) result }
{
    let payload = payload_at(cells, at)?;
    leaf_form(alloc, payload, at)
}

/// That many offsets in the cell at an offset.
pub(crate) fn offsets_at(
    alloc: Global,
    cells: &Source,
    count: u32,
    at: u32,
) -> Result<Offsets, ReadStop>
    ensures { Answers (λ o. o) (reading (offsets_in count) (cells_of cells.now) at) result }
{
    let payload = payload_at(cells, at)?;
    read_offsets(alloc, payload, count, at)
}

/// The first bytes of the cell at an offset.
pub(crate) fn bytes_at(
    alloc: Global,
    cells: &Source,
    count: u32,
    at: u32,
) -> Result<Bytes, ReadStop>
    ensures { Answers (λ b. b) (reading (bytes_in count) (cells_of cells.now) at) result }
{
    let payload = payload_at(cells, at)?;
    read_bytes(alloc, payload, count, at)
}

/// How many segments that many bytes of big data fill.
fn segment_count(size: u32) -> u64
    ensures { result ≡ segments_of size }
{
    let full = u64::from(SEGMENT);
    (u64::from(size) + full - 1) / full
}

/// A cell of big data for that many bytes: it has the same number of segments as these fill.
#[tactic(auto, unfolding(hive_model::specs::Walk::big_data_of))]
fn big_data_form(payload: &[u8], size: u32, at: u32) -> Result<DbForm, ReadStop>
    ensures { Gives form_of at result (big_data_of size payload.now) }
{
    let form = read_db(payload, at)?;
    if u64::from(form.segments) != segment_count(size) {
        return Err(stop(HiveFaultKind::FormLength, at));
    }
    Ok(form)
}

/// The cell of big data of that many bytes at an offset.
pub(crate) fn big_data_at(cells: &Source, size: u32, at: u32) -> Result<DbForm, ReadStop>
    ensures { Answers form_of (reading (big_data_of size) (cells_of cells.now) at) result }
{
    let payload = payload_at(cells, at)?;
    big_data_form(payload, size, at)
}
