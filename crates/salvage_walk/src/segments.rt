//! Segments of big data.

ghost use Rattle.std.specs.Prelude.{◌≡◌, ◌≤◌, ◌+◌, ◌*◌, ◌&&◌, ◌++◌, List, [], is_some, length, Ok, Err, IfOk, IfSome};
ghost use Rattle.nt_bytes.specs.declared.fault.HiveFaultKind.TheVariants.{Shared};
ghost use Rattle.hive_model.specs.Lists.{numbers_in};
ghost use Rattle.salvage_bins.specs.Ground.{ground_of};
ghost use Rattle.salvage_walk.specs.Uses.{claim_of, overlaps as overlaps_at};
ghost use Rattle.salvage_walk.specs.Values.{bytes_part, segments_part};
ghost use Rattle.salvage_walk.specs.Segments.{front_in, segments_there, segments_used, Spends};
ghost use Rattle.salvage_walk.specs.Remembered.{Remembers};
ghost use Rattle.salvage_walk.specs.Walked.{Tries};
ghost use Rattle.salvage_walk.specs.declared.claims.Claim.{Claim};

use crate::claims::Used;
use crate::lists::{Lists, SEGMENT, clear_of_rest};
use crate::parts::use_front;
use nt_bytes::{Bytes, HiveFault, HiveFaultKind, ReadStop, u32_at};
use salvage_bins::DamagedCells;
use std::alloc::{AllocError, Global};

// The first bytes of a segment, where they stand, and their use.
#[tactic(auto, unfolding(crate::specs::Values::bytes_part))]
fn use_segment<'a>(
    cells: &DamagedCells<'a>,
    used: &mut Used,
    count: u32,
    at: u32,
) -> Result<&'a [u8], ReadStop>
    ensures { Tries (λ p. p.now) used.old used.new result (bytes_part count (ground_of cells.now) used.old at) }
{
    use_front(cells, used, count, at)
}

// Uses the segments at that many offsets, which stand in these bytes. None of the segments' bytes is read.
fn use_segments(
    cells: &DamagedCells<'_>,
    used: &mut Used,
    size: u32,
    count: u32,
    entries: &[u8],
) -> Result<(), ReadStop>
    requires { 4 * count ≤ length entries.now }
    ensures { Spends used.old used.new result (segments_used (ground_of cells.now) size (numbers_in 4 count entries.now) used.old) }
{
    let mut left = size;
    let mut rest = entries;
    let mut number = count;
    'segments: while number > 0 {
        let at = u32_at(rest, 0);
        let _front = use_segment(cells, used, SEGMENT.min(left), at)?;
        left = left.saturating_sub(SEGMENT);
        rest = &rest[4..];
        number -= 1;
    }
    Ok(())
}

// The cell at an offset was used, or some of its bytes.
fn shared(at: u32) -> HiveFault
    ensures { result ≡ record { kind = Shared; at = at } }
{
    HiveFault {
        kind: HiveFaultKind::Shared,
        at,
    }
}

// Is the cell loose, and does a byte of this many lie in what was used of a loose cell?
fn overlaps(cells: &DamagedCells<'_>, used: &Used, count: u32, at: u32) -> bool
    ensures { result ≡ ((ground_of cells.now).loose at && overlaps_at at (at + (4 + count)) used.now) }
{
    cells.is_loose(at) && used.overlaps(at, u64::from(at) + 4 + u64::from(count))
}

// The same of two kinds of uses.
#[tactic(auto, using(crate::proofs::FaultLemmas::among))]
fn overlaps_any(cells: &DamagedCells<'_>, used: &Used, list: &Used, count: u32, at: u32) -> bool
    ensures { result ≡ ((ground_of cells.now).loose at && overlaps_at at (at + (4 + count)) (used.now ++ list.now)) }
{
    overlaps(cells, used, count, at) || overlaps(cells, list, count, at)
}

// Was a cell used?
fn is_used(used: &Used, at: u32) -> bool
    ensures { result ≡ is_some (claim_of at used.now) }
{
    used.claim_at(at).is_some()
}

// The same of two kinds of uses.
#[tactic(auto, using(crate::proofs::FaultLemmas::among))]
fn is_used_any(used: &Used, list: &Used, at: u32) -> bool
    ensures { result ≡ is_some (claim_of at (used.now ++ list.now)) }
{
    is_used(used, at) || is_used(list, at)
}

// Why a segment can't be used after these uses, whatever is used after them.
fn lasting_fault(cells: &DamagedCells<'_>, used: &Used, count: u32, at: u32) -> Option<HiveFault>
    ensures { IfSome result (λ f. (more : List Claim) → bytes_part count (ground_of cells.now) (used.now ++ more) at ≡ Err f) }
{
    match cells.payload(at) {
        Err(kind) => Some(HiveFault { kind, at }),
        Ok(payload) => {
            if is_used(used, at) {
                return Some(shared(at));
            }
            if payload.len() < count as usize {
                return None;
            }
            if overlaps(cells, used, count, at) {
                return Some(shared(at));
            }
            None
        }
    }
}

// Why a segment can't be used after these uses and those of the segments of a list.
fn fault_after(
    cells: &DamagedCells<'_>,
    used: &Used,
    list: &Used,
    count: u32,
    at: u32,
) -> Option<HiveFault>
    ensures { IfSome result (λ f. bytes_part count (ground_of cells.now) (used.now ++ list.now) at ≡ Err f) }
{
    match cells.payload(at) {
        Err(kind) => Some(HiveFault { kind, at }),
        Ok(payload) => {
            if is_used_any(used, list, at) {
                return Some(shared(at));
            }
            if payload.len() < count as usize {
                let kind = HiveFaultKind::FormShort;
                return Some(HiveFault { kind, at });
            }
            if overlaps_any(cells, used, list, count, at) {
                return Some(shared(at));
            }
            None
        }
    }
}

// The fault of the first segment that fails, of those at that many offsets, which stand in these bytes, where their list is
// remembered.
fn known_fault(
    cells: &DamagedCells<'_>,
    used: &Used,
    lists: &Lists,
    size: u32,
    count: u32,
    at: u32,
    entries: &[u8],
) -> Option<HiveFault>
    requires there { (ground_of cells.now).cells.payload at ≡ Ok entries.now }
    requires inside { 4 * count ≤ length entries.now }
    requires remembered { Remembers (ground_of cells.now) used.now lists.now }
    ensures { IfSome result (λ f. segments_used (ground_of cells.now) size (numbers_in 4 count entries.now) used.now ≡ Err f) }
{
    if count == 0 {
        return None;
    }
    let Some(list) = lists.lists.get(&at) else {
        return None;
    };
    let Some(least) = lists.least.get(&at) else {
        return None;
    };
    let bound = (*least)
        .min(list.len())
        .min(count as usize - 1)
        .min((size / SEGMENT) as usize);
    let number = clear_of_rest(list, used, lists.seen, bound);
    let entry = u32_at(&entries[4 * number..], 0);
    let left = size - SEGMENT * number as u32;
    if number == list.len() {
        fault_after(cells, used, list, SEGMENT.min(left), entry)
    } else {
        lasting_fault(cells, used, SEGMENT.min(left), entry)
    }
}

// The first bytes of an allocated cell, as many of them as there are.
fn front_at<'a>(cells: &DamagedCells<'a>, count: u32, at: u32) -> &'a [u8]
    ensures { result.now ≡ front_in count ((ground_of cells.now).cells.payload at) }
{
    match cells.payload(at) {
        Ok(payload) => &payload[..payload.len().min(count as usize)],
        Err(_) => &[],
    }
}

// The bytes of the segments at that many offsets, which stand in these bytes, joined in order.
fn join_segments(
    alloc: Global,
    cells: &DamagedCells<'_>,
    size: u32,
    count: u32,
    entries: &[u8],
) -> Result<Bytes, AllocError>
    requires { 4 * count ≤ length entries.now }
    ensures { IfOk result (λ b. b ≡ segments_there (ground_of cells.now) size (numbers_in 4 count entries.now)) }
{
    let mut bytes = Bytes::new(alloc);
    let mut left = size;
    let mut rest = entries;
    let mut number = count;
    'segments: while number > 0 {
        let at = u32_at(rest, 0);
        bytes.append(front_at(cells, SEGMENT.min(left), at))?;
        left = left.saturating_sub(SEGMENT);
        rest = &rest[4..];
        number -= 1;
    }
    Ok(bytes)
}

// The bytes of the segments at that many offsets, which are read only once all segments are used.
pub(crate) fn try_segments(
    alloc: Global,
    cells: &DamagedCells<'_>,
    used: &mut Used,
    lists: &Lists,
    size: u32,
    count: u32,
    at: u32,
    entries: &[u8],
) -> Result<Bytes, ReadStop>
    requires there { (ground_of cells.now).cells.payload at ≡ Ok entries.now }
    requires inside { 4 * count ≤ length entries.now }
    requires remembered { Remembers (ground_of cells.now) used.old lists.now }
    ensures { Tries (λ b. b) used.old used.new result
        (segments_part (ground_of cells.now) [] size (numbers_in 4 count entries.now) used.old) }
{
    if let Some(fault) = known_fault(cells, used, lists, size, count, at, entries) {
        return Err(ReadStop::Fault(fault));
    }
    use_segments(cells, used, size, count, entries)?;
    Ok(join_segments(alloc, cells, size, count, entries)?)
}
