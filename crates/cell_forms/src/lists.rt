//! Lists of offsets.

ghost use Rattle.std.specs.Prelude.{◌≡◌, ◌≤◌, ◌*◌, length, IfOk};
ghost use Rattle.hive_model.specs.Forms.{Gives};
ghost use Rattle.hive_model.specs.Lists.{list_at, list_of, numbers_in, offsets_in};
ghost use Rattle.cell_forms.specs.Views.{subkey_list_of, kind_of};

use crate::names::fault;
use nt_bytes::{HiveFaultKind, ReadStop, Row, u16_at, u32_at};
use std::alloc::{AllocError, Global};

/// Offsets in the bins data.
pub type Offsets = Row<u32>;

/// Which list of subkeys a cell holds.
#[derive(Clone, Copy, Debug, PartialEq, Eq)]
pub enum ListKind {
    /// Offsets of key nodes.
    Li,
    /// Offsets of key nodes, each with four bytes of the name.
    Lf,
    /// Offsets of key nodes, each with the hash of the name.
    Lh,
    /// Offsets of `li`, `lf` and `lh` cells.
    Ri,
}

/// A list of subkeys.
#[derive(Drop)]
pub struct ListForm {
    pub kind: ListKind,
    pub offsets: Offsets,
}

/// That many numbers of four bytes, each a step after the one before.
fn numbers(alloc: Global, step: usize, count: usize, bytes: &[u8]) -> Result<Offsets, AllocError>
    requires wide { 4 ≤ step }
    requires inside { step * count ≤ length bytes.now }
    ensures { IfOk result (λ v. v ≡ numbers_in step count bytes.now) }
{
    let mut all = Vec::with_capacity(alloc, count)?;
    let mut rest = bytes;
    let mut left = count;
    while left > 0 {
        all.push(u32_at(rest, 0))?;
        rest = &rest[step..];
        left -= 1;
    }
    Ok(Offsets::from_vec(all))
}

/// The list of this kind, whose entries have `step` bytes.
#[tactic(auto, unfolding(hive_model::specs::Lists::list_of))]
fn read_entries(
    alloc: Global,
    kind: ListKind,
    step: usize,
    payload: &[u8],
    at: u32,
) -> Result<ListForm, ReadStop>
    requires wide { 4 ≤ step }
    requires small { step ≤ 8 }
    ensures { Gives subkey_list_of at result (list_of (kind_of kind) step payload.now) }
{
    if payload.len() < 4 {
        return Err(fault(HiveFaultKind::FormShort, at));
    }
    let count = usize::from(u16_at(payload, 2));
    if payload.len() < 4 + step * count {
        return Err(fault(HiveFaultKind::FormShort, at));
    }
    let offsets = numbers(alloc, step, count, &payload[4..])?;
    Ok(ListForm { kind, offsets })
}

/// Reads a list of subkeys. `FormShort` where the payload is shorter than its entries, `FormSign`
/// where it begins with none of `li`, `lf`, `lh` and `ri`; each at `at`.
#[tactic(auto, unfolding(hive_model::specs::Lists::list_at))]
pub fn read_list(alloc: Global, payload: &[u8], at: u32) -> Result<ListForm, ReadStop>
    ensures { Gives subkey_list_of at result (list_at payload.now) }
{
    if payload.len() < 2 {
        return Err(fault(HiveFaultKind::FormShort, at));
    }
    let sign = u16_at(payload, 0);
    if sign == 0x696c {
        return read_entries(alloc, ListKind::Li, 4, payload, at);
    }
    if sign == 0x666c {
        return read_entries(alloc, ListKind::Lf, 8, payload, at);
    }
    if sign == 0x686c {
        return read_entries(alloc, ListKind::Lh, 8, payload, at);
    }
    if sign == 0x6972 {
        return read_entries(alloc, ListKind::Ri, 4, payload, at);
    }
    Err(fault(HiveFaultKind::FormSign, at))
}

/// The offsets of a value list of `count` values. `FormShort` at `at` where the payload has fewer.
#[tactic(auto, unfolding(hive_model::specs::Lists::offsets_in))]
pub fn read_offsets(alloc: Global, payload: &[u8], count: u32, at: u32) -> Result<Offsets, ReadStop>
    ensures { Gives (λ o. o) at result (offsets_in count payload.now) }
{
    let count = count as usize;
    if payload.len() < 4 * count {
        return Err(fault(HiveFaultKind::FormShort, at));
    }
    Ok(numbers(alloc, 4, count, payload)?)
}
