//! Lists of segments that a value failed on.

ghost use Rattle.std.specs.Prelude.{◌≡◌, ◌≤◌, ℕ, [], length, take, OnOk, IfOk};
ghost use Rattle.std.specs.Bool.{OnTrue};
ghost use Rattle.std.specs.Ordering.{nat_cmp};
ghost use Rattle.std.specs.BTreeMap.{get};
ghost use Rattle.hive_model.specs.Lists.{numbers_in};
ghost use Rattle.salvage_bins.specs.Ground.{Ground, ground_of};
ghost use Rattle.salvage_walk.specs.Clear.{IsClear, IsNextFrom, Stand};
ghost use Rattle.salvage_walk.specs.Remembered.{AreClearBelow, AreFull, AreWatchedBelow, Follows, KeepsOthers, KeepsWatch, Remembers, lowered, watch_key};
ghost use Rattle.salvage_walk.specs.Walked.{state_of};

use crate::claims::{Claim, Used, near_end, near_from};
use crate::lines::Walk;
use crate::parts::use_front;
use nt_bytes::{ReadStop, u32_at};
use salvage_bins::DamagedCells;
use std::alloc::{AllocError, Global};
use std::collections::BTreeMap;

// How many bytes a full segment of big data holds.
pub(crate) const SEGMENT: u32 = 16_344;

/// The entry of this number of the list at an offset.
#[derive(Clone, Copy)]
pub struct Watch {
    pub list: u32,
    pub number: usize,
}

/// The lists of segments that a value failed on, by their offsets: the uses of the first segments of each, as many as may stand
/// where nothing else does, and how many of these are clear of what stands. What was used since that was last looked at is looked up
/// among the segments that are clear, which are watched in the order of their places.
#[derive(Drop)]
pub struct Lists {
    pub(crate) lists: BTreeMap<u32, Used>,
    pub(crate) least: BTreeMap<u32, usize>,
    pub(crate) watches: BTreeMap<u64, Watch>,
    pub(crate) seen: usize,
}

// ---- what is used since

// By this the watches of an entry at a place are found, in the order of places.
fn key_of(at: u32, list: u32) -> u64
    ensures { result ≡ watch_key at list }
{
    4_294_967_296 * u64::from(at) + u64::from(list)
}

// The first watch from a key on.
fn next_watch(watches: &BTreeMap<u64, Watch>, from: u64) -> Option<(u64, Watch)>
    ensures { IsNextFrom watches.now from result }
{
    let mut rest = watches.range(from..);
    match rest.next() {
        Some((key, watch)) => Some((*key, *watch)),
        None => None,
    }
}

// Of a list that is known only the entries before this number may be clear.
fn lower(least: &mut BTreeMap<u32, usize>, list: u32, number: usize) -> Result<(), AllocError>
    ensures { OnOk result ((at : ℕ) → get nat_cmp least.new at ≡ lowered list number at (get nat_cmp least.old at)) }
{
    let Some(before) = least.get(&list) else {
        return Ok(());
    };
    let fewer = number.min(*before);
    least.insert(list, fewer)?;
    Ok(())
}

// Watches no entry any more that isn't clear of this use.
fn forget(
    watches: &mut BTreeMap<u64, Watch>,
    least: &mut BTreeMap<u32, usize>,
    claim: Claim,
) -> Result<(), AllocError>
    ensures { OnOk result (KeepsWatch claim least.old watches.old least.new watches.new) }
{
    let from = 4_294_967_296 * near_from(claim);
    let end = near_end(claim);
    'watches: loop {
        let Some((key, watch)) = next_watch(watches, from) else {
            return Ok(());
        };
        if key / 4_294_967_296 >= end {
            return Ok(());
        }
        let _watch = watches.remove(&key);
        lower(least, watch.list, watch.number)?;
    }
}

/// Looks up what was used since. All of it stands.
pub(crate) fn catch_up(lists: &mut Lists, used: &Used) -> Result<(), AllocError>
    requires { Follows used.now lists.old }
    ensures follows { OnOk result (Follows used.now lists.new) }
    ensures same { OnOk result (lists.new.lists ≡ lists.old.lists) }
{
    'uses: while lists.seen < used.len() {
        let Some(claim) = used.nth(lists.seen) else {
            return Ok(());
        };
        forget(&mut lists.watches, &mut lists.least, claim)?;
        lists.seen += 1;
    }
    Ok(())
}

// ---- one list more

// The uses of the first segments in a payload, as many as may stand where nothing else does.
fn first_segments(
    alloc: Global,
    cells: &DamagedCells<'_>,
    payload: &[u8],
) -> Result<Used, AllocError>
    ensures stand { IfOk result (λ list. Stand (ground_of cells.now) [] (numbers_in 4 (length list) payload.now) list) }
    ensures full { IfOk result AreFull }
{
    let mut list = Used::new(alloc);
    let mut rest = payload;
    'segments: while rest.len() >= 4 {
        match use_front(cells, &mut list, SEGMENT, u32_at(rest, 0)) {
            Ok(_) => {}
            Err(ReadStop::Memory) => return Err(AllocError),
            Err(ReadStop::Fault(_)) => return Ok(list),
        }
        rest = &rest[4..];
    }
    Ok(list)
}

// Is the use of a segment clear of these uses?
fn is_clear(used: &Used, claim: Claim) -> bool
    ensures { OnTrue result (IsClear used.now claim) }
{
    used.claim_at(claim.at).is_none() && !used.overlaps(claim.at, claim.end)
}

// Watches the entries of a list up to the first that isn't clear of these uses. Answers the number of that.
fn watch_entries(
    watches: &mut BTreeMap<u64, Watch>,
    used: &Used,
    at: u32,
    list: &Used,
) -> Result<usize, AllocError>
    ensures clear { IfOk result (λ least. AreClearBelow used.now list.now least) }
    ensures watched { IfOk result (λ least. AreWatchedBelow watches.new at list.now least) }
    ensures others { OnOk result (KeepsOthers at watches.old watches.new) }
{
    let mut least = list.len();
    let mut number = list.len();
    'entries: while number > 0 {
        number -= 1;
        let Some(claim) = list.nth(number) else {
            return Ok(0);
        };
        if is_clear(used, claim) {
            watches.insert(key_of(claim.at, at), Watch { list: at, number })?;
        } else {
            least = number;
        }
    }
    Ok(least)
}

impl Lists {
    /// No list is remembered, beside what a walk used so far.
    pub fn new(alloc: Global, walk: &Walk) -> Lists
        ensures { (hive : Ground) → Remembers hive (state_of walk.now).claims result }
    {
        Lists {
            lists: BTreeMap::new(alloc),
            least: BTreeMap::new(alloc),
            watches: BTreeMap::new(alloc),
            seen: walk.used.len(),
        }
    }
}

/// Remembers the list at an offset, beside these uses, all of which stand.
pub(crate) fn learn(
    alloc: Global,
    cells: &DamagedCells<'_>,
    used: &Used,
    lists: &mut Lists,
    at: u32,
) -> Result<(), AllocError>
    requires { Remembers (ground_of cells.now) used.now lists.old }
    ensures { OnOk result (Remembers (ground_of cells.now) used.now lists.new) }
{
    if lists.lists.contains_key(&at) {
        return Ok(());
    }
    let Ok(payload) = cells.payload(at) else {
        return Ok(());
    };
    let list = first_segments(alloc, cells, payload)?;
    let least = watch_entries(&mut lists.watches, used, at, &list)?;
    lists.least.insert(at, least)?;
    lists.lists.insert(at, list)?;
    Ok(())
}

/// Up to which number, a bound at most, are the segments of a list clear of these uses? Those before a number of uses were looked up
/// before.
pub(crate) fn clear_of_rest(list: &Used, used: &Used, seen: usize, bound: usize) -> usize
    requires { AreFull list.now }
    ensures few { result ≤ bound }
    ensures clear { AreClearBelow (take seen used.now) list.now bound → AreClearBelow used.now list.now result }
{
    let mut clear = bound;
    let mut number = seen;
    'uses: while number < used.len() {
        let Some(claim) = used.nth(number) else {
            return 0;
        };
        clear = list.clear_of(claim, clear);
        number += 1;
    }
    clear
}
