//! Cells used for their forms.

ghost use Rattle.std.specs.Prelude.{◌≡◌, ℕ, true, false, List, [], ◌∷◌, ◌||◌, Ok, Err, OnOk};
ghost use Rattle.nt_bytes.specs.declared.fault.ReadStop.TheVariants.{Fault};
ghost use Rattle.hive_model.specs.Forms.{Gives, bytes_in};
ghost use Rattle.hive_model.specs.KeyValue.{key_value_at};
ghost use Rattle.hive_model.specs.Security.{security_at};
ghost use Rattle.hive_model.specs.Lists.{list_at, offsets_in};
ghost use Rattle.nt_bytes.specs.Folding.{folds_same};
ghost use Rattle.hive_model.specs.Bins.{Cells};
ghost use Rattle.hive_cells.specs.Sources.{cells_of};
ghost use Rattle.hive_model.specs.Size.{segment_count as segments_of};
ghost use Rattle.hive_model.specs.Walk.{uses, node_at, big_data_of, leaf_at, name_check};
ghost use Rattle.cell_forms.specs.Views.{big_data_of as form_of, name_of, node_seen, security_of, subkey_list_of, value_seen};
ghost use Rattle.hive_read.specs.Taken.{has_name, Knows};
ghost use Rattle.hive_read.specs.Walked.{Seen, check, walk, Steps, Uses};
ghost use Rattle.hive_read.specs.Judged.{security_seen};

use crate::data::SEGMENT;
use crate::taken::Taken;
use crate::used::Used;
use cell_forms::{
    DbForm, ListForm, ListKind, NkSlice, Offsets, SkForm, StoredName, VkSlice, read_bytes, read_db,
    read_list, read_offsets, read_sk, see_nk, see_vk,
};
use hive_cells::Source;
use nt_bytes::{Bytes, HiveFault, HiveFaultKind, ReadStop, u16_at, u32_at};
use std::alloc::Global;

/// A fault of this kind at this offset.
pub(crate) fn stop(kind: HiveFaultKind, at: u32) -> ReadStop
    ensures { result ≡ Fault (record { kind = kind; at = at }) }
{
    ReadStop::Fault(HiveFault { kind, at })
}

// Uses a cell, if it wasn't used before but both times as security.
fn use_cell<'a>(
    cells: &Source<'a>,
    used: &mut Used,
    at: u32,
    security: bool,
) -> Result<&'a [u8], ReadStop>
    ensures { Steps (λ p. (cells_of cells.now).payload at ≡ Ok p.now) (check (cells_of cells.now) used.old (uses at security)) used.new result }
{
    let payload = cells.heap.payload(at)?;
    if !used.mark(at, security)? {
        return Err(stop(HiveFaultKind::Shared, at));
    }
    Ok(payload)
}

/// Adds the name of what is at this offset to those before it. `DoubleName` where one folds alike.
#[tactic(auto, using(crate::proofs::TakenLemmas::names))]
pub(crate) fn take_name<'a>(
    alloc: Global,
    taken: &mut Taken<'a>,
    name: StoredName<'a>,
    at: u32,
) -> Result<(), ReadStop>
    ensures walked { (names : List (List ℕ)) → Knows taken.old names → (cells : Cells) → (seen : Seen) →
        Steps (λ _. Unit {0}) (walk cells seen (name_check names at (name_of name.entry) ∷ [])) seen result }
    ensures known { OnOk result ((n : List ℕ) → has_name taken.new n ≡ (has_name taken.old n || folds_same n (name_of name.entry))) }
{
    if !taken.add(alloc, name)? {
        return Err(stop(HiveFaultKind::DoubleName, at));
    }
    Ok(())
}

// How many segments that many bytes of big data fill.
fn segment_count(size: u32) -> u64
    ensures { result ≡ segments_of size }
{
    let full = u64::from(SEGMENT);
    (u64::from(size) + full - 1) / full
}

// A key node. The root's name may be empty.
#[tactic(auto, unfolding(hive_model::specs::Walk::node_at))]
fn node_form(payload: &[u8], root: bool, at: u32) -> Result<NkSlice<'_>, ReadStop>
    ensures { Gives node_seen at result (node_at root payload.now) }
{
    let node = see_nk(payload, at)?;
    if node.name.len() == 0 && !root {
        return Err(stop(HiveFaultKind::FormName, at));
    }
    Ok(node)
}

// The entries of a list that is no list of lists.
#[tactic(auto, unfolding(hive_model::specs::Walk::leaf_at))]
fn leaf_form(alloc: Global, payload: &[u8], at: u32) -> Result<Offsets, ReadStop>
    ensures { Gives (λ o. o) at result (leaf_at payload.now) }
{
    let list = read_list(alloc, payload, at)?;
    match list.kind {
        ListKind::Ri => Err(stop(HiveFaultKind::FormKind, at)),
        _ => Ok(list.offsets),
    }
}

// A cell of big data for that many bytes: it has the same number of segments as these fill.
#[tactic(auto, unfolding(hive_model::specs::Walk::big_data_of))]
fn big_data_form(payload: &[u8], size: u32, at: u32) -> Result<DbForm, ReadStop>
    ensures { Gives form_of at result (big_data_of size payload.now) }
{
    let form = read_db(payload, at)?;
    if u64::from(form.segments) != segment_count(size) {
        return Err(stop(HiveFaultKind::FormLength, at));
    }
    Ok(form)
}

// The first bytes of a payload.
#[tactic(auto, unfolding(hive_model::specs::Forms::bytes_in))]
fn front(payload: &[u8], count: u32, at: u32) -> Result<&[u8], ReadStop>
    ensures { Gives (λ p. p.now) at result (bytes_in count payload.now) }
{
    let count = count as usize;
    if payload.len() < count {
        return Err(stop(HiveFaultKind::FormShort, at));
    }
    Ok(&payload[..count])
}

/// A security cell, its descriptor not copied.
#[derive(Drop)]
pub struct SkSlice<'a> {
    pub forward: u32,
    pub backward: u32,
    pub uses: u32,
    pub descriptor: &'a [u8],
}

// A security cell as `read_sk` reads it.
#[tactic(auto, unfolding(hive_model::specs::Security::security_at))]
fn security_form(payload: &[u8], at: u32) -> Result<SkSlice<'_>, ReadStop>
    ensures { Gives security_seen at result (security_at payload.now) }
{
    if payload.len() < 2 {
        return Err(stop(HiveFaultKind::FormShort, at));
    }
    if u16_at(payload, 0) != 0x6b73 {
        return Err(stop(HiveFaultKind::FormSign, at));
    }
    if payload.len() < 20 {
        return Err(stop(HiveFaultKind::FormShort, at));
    }
    let end = 20 + u32_at(payload, 16) as usize;
    if payload.len() < end {
        return Err(stop(HiveFaultKind::FormShort, at));
    }
    Ok(SkSlice {
        forward: u32_at(payload, 4),
        backward: u32_at(payload, 8),
        uses: u32_at(payload, 12),
        descriptor: &payload[20..end],
    })
}

pub(crate) fn use_node<'a>(
    cells: &Source<'a>,
    used: &mut Used,
    root: bool,
    at: u32,
) -> Result<NkSlice<'a>, ReadStop>
    ensures { Uses false (node_at root) node_seen (cells_of cells.now) at used.old used.new result }
{
    let payload = use_cell(cells, used, at, false)?;
    node_form(payload, root, at)
}

pub(crate) fn use_value<'a>(
    cells: &Source<'a>,
    used: &mut Used,
    at: u32,
) -> Result<VkSlice<'a>, ReadStop>
    ensures { Uses false key_value_at value_seen (cells_of cells.now) at used.old used.new result }
{
    let payload = use_cell(cells, used, at, false)?;
    see_vk(payload, at)
}

pub(crate) fn use_security(
    alloc: Global,
    cells: &Source,
    used: &mut Used,
    at: u32,
) -> Result<SkForm, ReadStop>
    ensures { Uses true security_at security_of (cells_of cells.now) at used.old used.new result }
{
    let payload = use_cell(cells, used, at, true)?;
    read_sk(alloc, payload, at)
}

/// The same without a copy.
pub(crate) fn use_security_slice<'a>(
    cells: &Source<'a>,
    used: &mut Used,
    at: u32,
) -> Result<SkSlice<'a>, ReadStop>
    ensures { Uses true security_at security_seen (cells_of cells.now) at used.old used.new result }
{
    let payload = use_cell(cells, used, at, true)?;
    security_form(payload, at)
}

pub(crate) fn use_list(
    alloc: Global,
    cells: &Source,
    used: &mut Used,
    at: u32,
) -> Result<ListForm, ReadStop>
    ensures { Uses false list_at subkey_list_of (cells_of cells.now) at used.old used.new result }
{
    let payload = use_cell(cells, used, at, false)?;
    read_list(alloc, payload, at)
}

/// A list of a list of lists.
pub(crate) fn use_leaf(
    alloc: Global,
    cells: &Source,
    used: &mut Used,
    at: u32,
) -> Result<Offsets, ReadStop>
    ensures { Uses false leaf_at (λ x. x) (cells_of cells.now) at used.old used.new result }
{
    let payload = use_cell(cells, used, at, false)?;
    leaf_form(alloc, payload, at)
}

/// The offsets of a value list.
pub(crate) fn use_offsets(
    alloc: Global,
    cells: &Source,
    used: &mut Used,
    count: u32,
    at: u32,
) -> Result<Offsets, ReadStop>
    ensures { Uses false (offsets_in count) (λ x. x) (cells_of cells.now) at used.old used.new result }
{
    let payload = use_cell(cells, used, at, false)?;
    read_offsets(alloc, payload, count, at)
}

/// The first bytes of a cell, as of a class or of data.
pub(crate) fn use_bytes(
    alloc: Global,
    cells: &Source,
    used: &mut Used,
    count: u32,
    at: u32,
) -> Result<Bytes, ReadStop>
    ensures { Uses false (bytes_in count) (λ x. x) (cells_of cells.now) at used.old used.new result }
{
    let payload = use_cell(cells, used, at, false)?;
    read_bytes(alloc, payload, count, at)
}

/// The same without a copy.
pub(crate) fn use_front<'a>(
    cells: &Source<'a>,
    used: &mut Used,
    count: u32,
    at: u32,
) -> Result<&'a [u8], ReadStop>
    ensures { Uses false (bytes_in count) (λ p. p.now) (cells_of cells.now) at used.old used.new result }
{
    let payload = use_cell(cells, used, at, false)?;
    front(payload, count, at)
}

/// The cell of big data of that many bytes.
pub(crate) fn use_big_data(
    cells: &Source,
    used: &mut Used,
    size: u32,
    at: u32,
) -> Result<DbForm, ReadStop>
    ensures { Uses false (big_data_of size) form_of (cells_of cells.now) at used.old used.new result }
{
    let payload = use_cell(cells, used, at, false)?;
    big_data_form(payload, size, at)
}
