//! Cells used for their forms.

ghost use Rattle.std.specs.Prelude.{◌≡◌, ◌+◌, ◌*◌, ◌<◌, ◌≤◌, ◌^◌, true, false, length, Ok, IfOk};
ghost use Rattle.nt_bytes.specs.declared.fault.ReadStop.TheVariants.{Fault};
ghost use Rattle.hive_model.specs.Forms.{Gives, bytes_in};
ghost use Rattle.hive_model.specs.Security.{security_at};
ghost use Rattle.hive_model.specs.Lists.{numbers_in, offsets_in};
ghost use Rattle.hive_model.specs.Walk.{big_data_of};
ghost use Rattle.hive_model.specs.Size.{segment_count as segments_of};
ghost use Rattle.cell_forms.specs.Views.{big_data_of as form_of, key_node_of, key_value_of, security_of};
ghost use Rattle.salvage_bins.specs.Ground.{ground_of};
ghost use Rattle.salvage_walk.specs.Uses.{admitted, claimed, clashes};
ghost use Rattle.salvage_walk.specs.Parts.{part, node_form, value_form, name_bytes, node_long, value_long, security_long, bytes_long, big_long, offsets_long};
ghost use Rattle.salvage_walk.specs.SecuritySeen.{sk_seen};
ghost use Rattle.salvage_walk.specs.Walked.{Gains, ClaimsOf};

use crate::claims::{Claim, Used};
use crate::names::NameSet;
use cell_forms::{DbForm, NkForm, SkForm, VkForm, read_db, read_nk, read_vk};
use nt_bytes::{Bytes, HiveFault, HiveFaultKind, ReadStop, u16_at, u32_at};
use salvage_bins::DamagedCells;
use std::alloc::Global;

/// A fault of this kind at this offset.
pub(crate) fn stop(kind: HiveFaultKind, at: u32) -> ReadStop
    ensures { result ≡ Fault (record { kind = kind; at = at }) }
{
    ReadStop::Fault(HiveFault { kind, at })
}

// Was the cell used, and not both times as security?
fn clash(claim: Option<Claim>, security: bool) -> bool
    ensures { result ≡ clashes claim security }
{
    match claim {
        None => false,
        Some(claim) => !(security && claim.security),
    }
}

/// The payload of an allocated cell that may be used.
#[tactic(auto, unfolding(crate::specs::Uses::admitted))]
pub(crate) fn admit<'a>(
    cells: &DamagedCells<'a>,
    used: &Used,
    security: bool,
    at: u32,
) -> Result<&'a [u8], ReadStop>
    ensures admitted { Gives (λ p. p.now) at result (admitted (ground_of cells.now) used.now security at) }
    ensures there { IfOk result (λ p. (ground_of cells.now).cells.payload at ≡ Ok p.now) }
{
    match cells.payload(at) {
        Err(kind) => Err(stop(kind, at)),
        Ok(payload) => {
            if clash(used.claim_at(at), security) {
                return Err(stop(HiveFaultKind::Shared, at));
            }
            Ok(payload)
        }
    }
}

/// Uses that many bytes of a cell.
#[tactic(auto, using(crate::proofs::UseLemmas::befores), unfolding(crate::specs::Uses::claimed))]
pub(crate) fn claim(
    cells: &DamagedCells<'_>,
    used: &mut Used,
    security: bool,
    at: u32,
    long: u64,
) -> Result<(), ReadStop>
    requires some { 0 < long }
    requires small { long ≤ 2 ^ 63 + 4096 }
    ensures { ClaimsOf at used.old used.new result (claimed (ground_of cells.now) used.old security at long) }
{
    if used.claim_at(at).is_some() {
        return Ok(());
    }
    let end = u64::from(at) + long;
    let loose = cells.is_loose(at);
    if loose && used.overlaps(at, end) {
        return Err(stop(HiveFaultKind::Shared, at));
    }
    used.push(Claim {
        at,
        end,
        security,
        loose,
    })?;
    Ok(())
}

//// A key node, beside siblings of these names.
#[tactic(auto, unfolding(crate::specs::Parts::node_form, hive_model::specs::Walk::node_at))]
fn node_in(
    alloc: Global,
    payload: &[u8],
    root: bool,
    taken: &NameSet,
    at: u32,
) -> Result<NkForm, ReadStop>
    ensures { Gives key_node_of at result (node_form root taken.now payload.now) }
{
    let node = read_nk(alloc, payload, at)?;
    if node.name.len() == 0 && !root {
        return Err(stop(HiveFaultKind::FormName, at));
    }
    if taken.has(alloc, node.name.as_slice())? {
        return Err(stop(HiveFaultKind::DoubleName, at));
    }
    Ok(node)
}

/// A value, beside values of these names.
#[tactic(auto, unfolding(crate::specs::Parts::value_form))]
fn value_in(alloc: Global, payload: &[u8], taken: &NameSet, at: u32) -> Result<VkForm, ReadStop>
    ensures { Gives key_value_of at result (value_form taken.now payload.now) }
{
    let value = read_vk(alloc, payload, at)?;
    if taken.has(alloc, value.name.as_slice())? {
        return Err(stop(HiveFaultKind::DoubleName, at));
    }
    Ok(value)
}

// How many bytes a name is stored in.
fn name_len(narrow: bool, name: &[u16]) -> u64
    ensures exact { result ≡ name_bytes narrow name.now }
    ensures small { result ≤ 2 ^ 63 }
{
    if narrow {
        name.len() as u64
    } else {
        2 * name.len() as u64
    }
}

// How many bytes of a key node's cell are used.
fn node_len(node: &NkForm) -> u64
    ensures exact { result ≡ node_long (key_node_of node.now) }
    ensures small { result ≤ 2 ^ 63 + 80 }
{
    80 + name_len(node.flags / 32 % 2 == 1, node.name.as_slice())
}

// How many bytes of a value's cell are used.
fn value_len(value: &VkForm) -> u64
    ensures exact { result ≡ value_long (key_value_of value.now) }
    ensures small { result ≤ 2 ^ 63 + 24 }
{
    24 + name_len(value.flags % 2 == 1, value.name.as_slice())
}

/// The key node in a cell, beside siblings of these names, and its use.
#[tactic(auto, unfolding(crate::specs::Parts::part))]
pub(crate) fn use_node(
    alloc: Global,
    cells: &DamagedCells<'_>,
    used: &mut Used,
    root: bool,
    taken: &NameSet,
    at: u32,
) -> Result<NkForm, ReadStop>
    ensures { Gains key_node_of at used.old used.new result
        (part (node_form root taken.now) node_long false (ground_of cells.now) used.old at) }
{
    let payload = admit(cells, used, false, at)?;
    let node = node_in(alloc, payload, root, taken, at)?;
    claim(cells, used, false, at, node_len(&node))?;
    Ok(node)
}

/// The value in a cell, beside values of these names, and its use.
#[tactic(auto, unfolding(crate::specs::Parts::part))]
pub(crate) fn use_value(
    alloc: Global,
    cells: &DamagedCells<'_>,
    used: &mut Used,
    taken: &NameSet,
    at: u32,
) -> Result<VkForm, ReadStop>
    ensures { Gains key_value_of at used.old used.new result
        (part (value_form taken.now) value_long false (ground_of cells.now) used.old at) }
{
    let payload = admit(cells, used, false, at)?;
    let value = value_in(alloc, payload, taken, at)?;
    claim(cells, used, false, at, value_len(&value))?;
    Ok(value)
}

/// A security cell, its descriptor where it stands.
#[derive(Drop)]
pub struct SkSeen<'a> {
    pub forward: u32,
    pub backward: u32,
    pub uses: u32,
    pub descriptor: &'a [u8],
}

// The security cell in a payload.
#[tactic(auto, unfolding(hive_model::specs::Security::security_at))]
fn see_sk(payload: &[u8], at: u32) -> Result<SkSeen<'_>, ReadStop>
    ensures { Gives sk_seen at result (security_at payload.now) }
{
    if payload.len() < 2 {
        return Err(stop(HiveFaultKind::FormShort, at));
    }
    if u16_at(payload, 0) != 0x6b73 {
        return Err(stop(HiveFaultKind::FormSign, at));
    }
    if payload.len() < 20 {
        return Err(stop(HiveFaultKind::FormShort, at));
    }
    let end = 20 + u32_at(payload, 16) as usize;
    if payload.len() < end {
        return Err(stop(HiveFaultKind::FormShort, at));
    }
    Ok(SkSeen {
        forward: u32_at(payload, 4),
        backward: u32_at(payload, 8),
        uses: u32_at(payload, 12),
        descriptor: &payload[20..end],
    })
}

/// The security cell, and its use. Its descriptor is read only then.
#[tactic(auto, unfolding(crate::specs::Parts::part))]
pub(crate) fn use_security(
    alloc: Global,
    cells: &DamagedCells<'_>,
    used: &mut Used,
    at: u32,
) -> Result<SkForm, ReadStop>
    ensures { Gains security_of at used.old used.new result
        (part security_at security_long true (ground_of cells.now) used.old at) }
{
    let payload = admit(cells, used, true, at)?;
    let cell = see_sk(payload, at)?;
    let long = 24 + cell.descriptor.len() as u64;
    claim(cells, used, true, at, long)?;
    Ok(SkForm {
        forward: cell.forward,
        backward: cell.backward,
        uses: cell.uses,
        descriptor: Bytes::from_slice(alloc, cell.descriptor)?,
    })
}

// The first bytes of a payload, where they stand.
#[tactic(auto, unfolding(hive_model::specs::Forms::bytes_in))]
fn front_of(payload: &[u8], count: u32, at: u32) -> Result<&[u8], ReadStop>
    ensures { Gives (λ p. p.now) at result (bytes_in count payload.now) }
{
    let count = count as usize;
    if payload.len() < count {
        return Err(stop(HiveFaultKind::FormShort, at));
    }
    Ok(&payload[..count])
}

/// The first bytes of a cell, where they stand, and their use. Takes the same time for any number of bytes.
#[tactic(auto, unfolding(crate::specs::Parts::part))]
pub(crate) fn use_front<'a>(
    cells: &DamagedCells<'a>,
    used: &mut Used,
    count: u32,
    at: u32,
) -> Result<&'a [u8], ReadStop>
    ensures { Gains (λ p. p.now) at used.old used.new result (part (bytes_in count) bytes_long false (ground_of cells.now) used.old at) }
{
    let payload = admit(cells, used, false, at)?;
    let front = front_of(payload, count, at)?;
    claim(cells, used, false, at, 4 + front.len() as u64)?;
    Ok(front)
}

/// The first bytes of a cell, as of a class or of data, and their use.
pub(crate) fn use_bytes(
    alloc: Global,
    cells: &DamagedCells<'_>,
    used: &mut Used,
    count: u32,
    at: u32,
) -> Result<Bytes, ReadStop>
    ensures { Gains (λ b. b) at used.old used.new result (part (bytes_in count) bytes_long false (ground_of cells.now) used.old at) }
{
    let front = use_front(cells, used, count, at)?;
    Ok(Bytes::from_slice(alloc, front)?)
}

// The payload of a cell that begins with that many offsets.
#[tactic(auto, unfolding(hive_model::specs::Lists::offsets_in))]
fn with_offsets(payload: &[u8], count: u32, at: u32) -> Result<&[u8], ReadStop>
    ensures exact { Gives (λ p. numbers_in 4 count p.now) at result (offsets_in count payload.now) }
    ensures inside { IfOk result (λ p. 4 * count ≤ length p.now) }
    ensures same { IfOk result (λ p. p.now ≡ payload.now) }
{
    if payload.len() < 4 * count as usize {
        return Err(stop(HiveFaultKind::FormShort, at));
    }
    Ok(payload)
}

// How many bytes of the cell of a list of segments are used.
fn offsets_len(count: u32, entries: &[u8]) -> u64
    ensures exact { result ≡ offsets_long (numbers_in 4 count entries.now) }
    ensures some { 0 < result }
    ensures small { result ≤ 2 ^ 63 }
{
    4 + 4 * u64::from(count)
}

/// Where that many offsets of segments stand, and their use. None of them is read.
#[tactic(auto, unfolding(crate::specs::Parts::part))]
pub(crate) fn use_offsets<'a>(
    cells: &DamagedCells<'a>,
    used: &mut Used,
    count: u32,
    at: u32,
) -> Result<&'a [u8], ReadStop>
    ensures exact { Gains (λ p. numbers_in 4 count p.now) at used.old used.new result
        (part (offsets_in count) offsets_long false (ground_of cells.now) used.old at) }
    ensures inside { IfOk result (λ p. 4 * count ≤ length p.now) }
    ensures there { IfOk result (λ p. (ground_of cells.now).cells.payload at ≡ Ok p.now) }
{
    let payload = admit(cells, used, false, at)?;
    let entries = with_offsets(payload, count, at)?;
    claim(cells, used, false, at, offsets_len(count, entries))?;
    Ok(entries)
}

// How many segments that many bytes of big data fill.
fn segment_count(size: u32) -> u64
    ensures { result ≡ segments_of size }
{
    (u64::from(size) + 16_343) / 16_344
}

// A cell of big data for that many bytes.
#[tactic(auto, unfolding(hive_model::specs::Walk::big_data_of))]
fn big_data_in(payload: &[u8], size: u32, at: u32) -> Result<DbForm, ReadStop>
    ensures { Gives form_of at result (big_data_of size payload.now) }
{
    let form = read_db(payload, at)?;
    if u64::from(form.segments) != segment_count(size) {
        return Err(stop(HiveFaultKind::FormLength, at));
    }
    Ok(form)
}

/// The cell of big data of that many bytes, and its use.
#[tactic(auto, unfolding(crate::specs::Parts::part))]
pub(crate) fn use_big_data(
    cells: &DamagedCells<'_>,
    used: &mut Used,
    size: u32,
    at: u32,
) -> Result<DbForm, ReadStop>
    ensures { Gains form_of at used.old used.new result (part (big_data_of size) big_long false (ground_of cells.now) used.old at) }
{
    let payload = admit(cells, used, false, at)?;
    let big = big_data_in(payload, size, at)?;
    claim(cells, used, false, at, 12)?;
    Ok(big)
}
