//! Lists of which perhaps only a front is there.

ghost use Rattle.std.specs.Prelude.{◌≡◌, ◌+◌, ◌*◌, ◌≤◌, ◌<◌, ◌^◌, length, false, IfOk};
ghost use Rattle.hive_model.specs.Forms.{Gives};
ghost use Rattle.hive_model.specs.Lists.{numbers_in};
ghost use Rattle.hive_model.specs.Walk.{is_list_of_lists};
ghost use Rattle.cell_forms.specs.Views.{kind_of};
ghost use Rattle.salvage_bins.specs.Ground.{ground_of};
ghost use Rattle.salvage_walk.specs.Uses.{claimed};
ghost use Rattle.salvage_walk.specs.Fronts.{front_of, kind_front, list_front, leaf_front, values_front, kind_or_short, claimed_or_short, front_part};
ghost use Rattle.salvage_walk.specs.FrontSeen.{front_seen};
ghost use Rattle.salvage_walk.specs.FrontPlaces.{front_there, IsFrontPlace};
ghost use Rattle.salvage_walk.specs.Walked.{Gains};

use crate::claims::Used;
use crate::parts::{admit, claim, stop};
use cell_forms::{ListKind, Offsets};
use nt_bytes::{HiveFaultKind, ReadStop, u16_at, u32_at};
use salvage_bins::DamagedCells;
use std::alloc::{AllocError, Global};

/// The entries of a list that are there, how many bytes its cell has up to their end, and whether it is too short for all.
#[derive(Drop)]
pub struct FrontForm {
    pub kind: ListKind,
    pub offsets: Offsets,
    pub long: u64,
    pub short: bool,
}

/// The same, with its entries where they stand: that many, of `step` bytes each.
#[derive(Drop)]
pub struct FrontPlace<'a> {
    pub kind: ListKind,
    pub step: usize,
    pub fits: usize,
    pub entries: &'a [u8],
    pub long: u64,
    pub short: bool,
}

// That many numbers of four bytes, each a step after the one before.
fn numbers(alloc: Global, step: usize, count: usize, bytes: &[u8]) -> Result<Offsets, AllocError>
    requires wide { 4 ≤ step }
    requires inside { step * count ≤ length bytes.now }
    ensures { IfOk result (λ v. v ≡ numbers_in step count bytes.now) }
{
    let mut all = Vec::with_capacity(alloc, count)?;
    let mut rest = bytes;
    let mut left = count;
    while left > 0 {
        all.push(u32_at(rest, 0))?;
        rest = &rest[step..];
        left -= 1;
    }
    Ok(Offsets::from_vec(all))
}

// Of that many entries of that many bytes each, after that many bytes of a payload, those that are there.
fn front(kind: ListKind, step: usize, count: usize, from: usize, payload: &[u8]) -> FrontPlace<'_>
    requires wide { 4 ≤ step }
    requires narrow { step ≤ 8 }
    requires few { count < 2 ^ 32 }
    requires inside { from ≤ length payload.now }
    ensures exact { front_there result ≡ front_of (kind_of kind) step count from payload.now }
    ensures bounds { IsFrontPlace result }
{
    let fits = count.min((payload.len() - from) / step);
    FrontPlace {
        kind,
        step,
        fits,
        entries: &payload[from..],
        long: (4 + from + step * fits) as u64,
        short: payload.len() < from + step * count,
    }
}

// A list of subkeys of this kind, whose entries have `step` bytes.
#[tactic(auto, unfolding(crate::specs::Fronts::kind_front))]
fn kind_of_list(
    kind: ListKind,
    step: usize,
    payload: &[u8],
    at: u32,
) -> Result<FrontPlace<'_>, ReadStop>
    requires wide { 4 ≤ step }
    requires narrow { step ≤ 8 }
    ensures exact { Gives front_there at result (kind_front (kind_of kind) step payload.now) }
    ensures bounds { IfOk result IsFrontPlace }
{
    if payload.len() < 4 {
        return Err(stop(HiveFaultKind::FormShort, at));
    }
    let count = usize::from(u16_at(payload, 2));
    Ok(front(kind, step, count, 4, payload))
}

// A list of subkeys.
#[tactic(auto, unfolding(crate::specs::Fronts::list_front))]
fn list_in(payload: &[u8], at: u32) -> Result<FrontPlace<'_>, ReadStop>
    ensures exact { Gives front_there at result (list_front payload.now) }
    ensures bounds { IfOk result IsFrontPlace }
{
    if payload.len() < 2 {
        return Err(stop(HiveFaultKind::FormShort, at));
    }
    let sign = u16_at(payload, 0);
    if sign == 0x696c {
        return kind_of_list(ListKind::Li, 4, payload, at);
    }
    if sign == 0x666c {
        return kind_of_list(ListKind::Lf, 8, payload, at);
    }
    if sign == 0x686c {
        return kind_of_list(ListKind::Lh, 8, payload, at);
    }
    if sign == 0x6972 {
        return kind_of_list(ListKind::Ri, 4, payload, at);
    }
    Err(stop(HiveFaultKind::FormSign, at))
}

/// Does a list of this kind list lists?
pub(crate) fn lists_lists(kind: ListKind) -> bool
    ensures { result ≡ is_list_of_lists (kind_of kind) }
{
    match kind {
        ListKind::Li => false,
        ListKind::Lf => false,
        ListKind::Lh => false,
        ListKind::Ri => true,
    }
}

// The fault of a list that fails so: that it is too short comes first.
fn or_short(short: bool, kind: HiveFaultKind) -> HiveFaultKind
    ensures { result ≡ kind_or_short short kind }
{
    if short {
        HiveFaultKind::FormShort
    } else {
        kind
    }
}

// A list of a list of lists.
#[tactic(auto, unfolding(crate::specs::Fronts::leaf_front))]
fn leaf_in(payload: &[u8], at: u32) -> Result<FrontPlace<'_>, ReadStop>
    ensures exact { Gives front_there at result (leaf_front payload.now) }
    ensures bounds { IfOk result IsFrontPlace }
{
    let list = list_in(payload, at)?;
    if lists_lists(list.kind) {
        return Err(stop(or_short(list.short, HiveFaultKind::FormKind), at));
    }
    Ok(list)
}

// The front that stands at this place.
fn read_front(alloc: Global, list: FrontPlace<'_>) -> Result<FrontForm, AllocError>
    requires { IsFrontPlace list }
    ensures { IfOk result (λ f. front_seen f ≡ front_there list.entry) }
{
    let offsets = numbers(alloc, list.step, list.fits, list.entries)?;
    Ok(FrontForm {
        kind: list.kind,
        offsets,
        long: list.long,
        short: list.short,
    })
}

// The use of a list. Its entries are read only then.
fn claim_front(
    alloc: Global,
    cells: &DamagedCells<'_>,
    used: &mut Used,
    list: FrontPlace<'_>,
    at: u32,
) -> Result<FrontForm, ReadStop>
    requires { IsFrontPlace list }
    ensures { Gains front_seen at used.old used.new result
        (claimed_or_short (front_there list.entry) (claimed (ground_of cells.now) used.old false at list.entry.long)) }
{
    match claim(cells, used, false, at, list.long) {
        Ok(()) => Ok(read_front(alloc, list)?),
        Err(ReadStop::Memory) => Err(ReadStop::Memory),
        Err(ReadStop::Fault(fault)) => Err(stop(or_short(list.short, fault.kind), at)),
    }
}

/// A list of that many values, and its use.
#[tactic(auto, unfolding(crate::specs::Fronts::front_part, crate::specs::Fronts::values_front))]
pub(crate) fn use_values(
    alloc: Global,
    cells: &DamagedCells<'_>,
    used: &mut Used,
    count: u32,
    at: u32,
) -> Result<FrontForm, ReadStop>
    ensures { Gains front_seen at used.old used.new result (front_part (values_front count) (ground_of cells.now) used.old at) }
{
    let payload = admit(cells, used, false, at)?;
    let list = front(ListKind::Li, 4, count as usize, 0, payload);
    claim_front(alloc, cells, used, list, at)
}

/// A list of subkeys, and its use.
#[tactic(auto, unfolding(crate::specs::Fronts::front_part))]
pub(crate) fn use_list(
    alloc: Global,
    cells: &DamagedCells<'_>,
    used: &mut Used,
    at: u32,
) -> Result<FrontForm, ReadStop>
    ensures { Gains front_seen at used.old used.new result (front_part list_front (ground_of cells.now) used.old at) }
{
    let payload = admit(cells, used, false, at)?;
    let list = list_in(payload, at)?;
    claim_front(alloc, cells, used, list, at)
}

/// A list of a list of lists, and its use.
#[tactic(auto, unfolding(crate::specs::Fronts::front_part))]
pub(crate) fn use_leaf(
    alloc: Global,
    cells: &DamagedCells<'_>,
    used: &mut Used,
    at: u32,
) -> Result<FrontForm, ReadStop>
    ensures { Gains front_seen at used.old used.new result (front_part leaf_front (ground_of cells.now) used.old at) }
{
    let payload = admit(cells, used, false, at)?;
    let list = leaf_in(payload, at)?;
    claim_front(alloc, cells, used, list, at)
}
