//! Which cells are used, and how much of each.

ghost use Rattle.std.specs.Prelude.{◌≡◌, ◌<◌, ◌≤◌, ◌+◌, ◌-◌, ℕ, [], ◌∷◌, ◌++◌, true, false, None, Some, length, take, slice_get, OnOk, OnErr};
ghost use Rattle.std.specs.Ordering.{nat_cmp};
ghost use Rattle.std.specs.BTreeMap.{get, Updates};
ghost use Rattle.salvage_walk.specs.Placed.{AreOnce, claim_at_place, claim_if};
ghost use Rattle.salvage_walk.specs.LooseEnds.{IsLastBefore, LooseEnds, with_end, without_end};
ghost use Rattle.salvage_walk.specs.Uses.{claim_of, overlaps};
ghost use Rattle.salvage_walk.specs.Clear.{IsClear, IsNextFrom};

use std::alloc::{AllocError, Global};
use std::collections::BTreeMap;
use std::marker::Model;

/// A use of a cell: up to which byte, whether as security, and whether the cell is loose.
#[derive(Clone, Copy)]
pub struct Claim {
    pub at: u32,
    pub end: u64,
    pub security: bool,
    pub loose: bool,
}

/// The uses so far, in order. Beside them stands by the offset of a cell which use may be the one of that cell, and up to where a
/// loose cell is used, so that none is looked for in sequence.
#[derive(Drop)]
pub struct Used {
    claims: Vec<Claim>,
    places: BTreeMap<u64, usize>,
    loose: BTreeMap<u64, u64>,
}

impl Model for Used {
    ghost use Rattle.std.specs.Prelude.{List};
    ghost use Rattle.salvage_walk.specs.declared.claims.Claim.{Claim};
    ghost use Rattle.salvage_walk.specs.LooseEnds.{AreKept};

    ghost Value = { List Claim };

    ghost view = { λ a. a.claims.items };

    ghost invariant = { λ a. AreKept a.places a.loose a.claims.items };
}

// The use at a place in their order, if it is of this cell.
fn claim_if(claims: &[Claim], place: usize, at: u32) -> Option<Claim>
    ensures { result ≡ claim_at_place at claims.now place }
{
    match claims.get(place) {
        Some(claim) => only_of(claim, at),
        None => None,
    }
}

fn only_of(claim: &Claim, at: u32) -> Option<Claim>
    ensures { result ≡ claim_if at claim.now }
{
    if claim.at == at { Some(*claim) } else { None }
}

fn count_of(claims: &Vec<Claim>) -> usize
    ensures { result ≡ length claims.now.items }
{
    claims.len()
}

// Notes the place of the use of a cell. Without memory for it nothing changes.
fn put(places: &mut BTreeMap<u64, usize>, at: u32, place: usize) -> Result<(), AllocError>
    ensures ok { OnOk result (Updates nat_cmp places.old places.new at (Some place)) }
    ensures err { OnErr result (places.new.entries ≡ places.old.entries) }
{
    places.insert(u64::from(at), place)?;
    Ok(())
}

// Notes up to where a cell is used, if it is loose. Without memory for it nothing changes.
fn put_loose(loose: &mut BTreeMap<u64, u64>, claim: Claim) -> Result<(), AllocError>
    ensures ok { OnOk result ((at : ℕ) → get nat_cmp loose.new at ≡ with_end claim at (get nat_cmp loose.old at)) }
    ensures err { OnErr result (loose.new.entries ≡ loose.old.entries) }
{
    if claim.loose {
        loose.insert(u64::from(claim.at), claim.end)?;
    }
    Ok(())
}

// Forgets up to where a cell is used, if it is loose.
fn drop_loose(loose: &mut BTreeMap<u64, u64>, claim: Claim)
    ensures { (at : ℕ) → get nat_cmp loose.new at ≡ without_end claim at (get nat_cmp loose.old at) }
{
    if claim.loose {
        let _end = loose.remove(&u64::from(claim.at));
    }
}

// The last of these uses that begins before a place, with its end.
fn last_before(loose: &BTreeMap<u64, u64>, place: u64) -> Option<(u64, u64)>
    ensures { IsLastBefore loose.now place result }
{
    let mut before = loose.range(..place);
    match before.next_back() {
        Some((at, end)) => Some((*at, *end)),
        None => None,
    }
}

// The first of these places from one on, with what stands there.
fn next_place(places: &BTreeMap<u64, usize>, from: u64) -> Option<(u64, usize)>
    ensures { IsNextFrom places.now from result }
{
    let mut rest = places.range(from..);
    match rest.next() {
        Some((at, number)) => Some((*at, *number)),
        None => None,
    }
}

// The least of the numbers at places from one up to another, or a bound that is less.
fn least_number(places: &BTreeMap<u64, usize>, from: u64, end: u64, bound: usize) -> usize
    ensures few { result ≤ bound }
    ensures least { (at number : ℕ) → from ≤ at → at < end → get nat_cmp places.now at ≡ Some number → result ≤ number }
{
    let mut least = bound;
    let mut next = from;
    'places: while next < end {
        let Some((at, number)) = next_place(places, next) else {
            return least;
        };
        if at >= end {
            return least;
        }
        least = least.min(number);
        next = at + 1;
    }
    least
}

/// From which place on a full segment may have a byte of this use.
pub(crate) fn near_from(claim: Claim) -> u64
    ensures { result ≡ claim.at - 16347 }
{
    u64::from(claim.at).saturating_sub(16_347)
}

/// Up to which place it may.
pub(crate) fn near_end(claim: Claim) -> u64
    ensures begun { claim.at < result }
    ensures ended { claim.end ≤ result }
{
    claim.end.max(u64::from(claim.at) + 1)
}

// One claim more, whose end was noted. Without memory for it the end is forgotten.
fn append(
    claims: &mut Vec<Claim>,
    loose: &mut BTreeMap<u64, u64>,
    claim: Claim,
) -> Result<(), AllocError>
    ensures ok { OnOk result (claims.new.items ≡ claims.old.items ++ claim ∷ []) }
    ensures noted { OnOk result (loose.new.entries ≡ loose.old.entries) }
    ensures err { OnErr result (claims.new.items ≡ claims.old.items) }
    ensures forgotten { OnErr result ((at : ℕ) → get nat_cmp loose.new at ≡ without_end claim at (get nat_cmp loose.old at)) }
{
    match claims.push(claim) {
        Ok(()) => Ok(()),
        Err(_) => {
            drop_loose(loose, claim);
            Err(AllocError)
        }
    }
}

// Takes all claims back but the first ones, and forgets their ends.
fn take_back(claims: &mut Vec<Claim>, loose: &mut BTreeMap<u64, u64>, len: usize)
    requires once { AreOnce claims.old.items }
    requires ends_before { LooseEnds loose.old claims.old.items }
    ensures kept { claims.new.items ≡ take len claims.old.items }
    ensures ends { LooseEnds loose.new claims.new.items }
{
    'claims: while claims.len() > len {
        let Some(claim) = claims.pop() else {
            return;
        };
        drop_loose(loose, claim);
    }
}

impl Used {
    pub(crate) fn new(alloc: Global) -> Used
        ensures { result ≡ [] }
    {
        Used {
            claims: Vec::new(alloc),
            places: BTreeMap::new(alloc),
            loose: BTreeMap::new(alloc),
        }
    }

    pub(crate) fn len(&self) -> usize
        ensures { result ≡ length self.now }
    {
        self.claims.len()
    }

    /// The use of this number, counted from 0.
    pub(crate) fn nth(&self, number: usize) -> Option<Claim>
        ensures { result ≡ slice_get self.now number }
    {
        match self.claims.get(number) {
            Some(claim) => Some(*claim),
            None => None,
        }
    }

    /// Up to which number, a bound at most, are these uses, each of a full segment, clear of another use?
    pub(crate) fn clear_of(&self, claim: Claim, bound: usize) -> usize
        ensures few { result ≤ bound }
        ensures clear { (i : ℕ) (s : Claim) → slice_get self.now i ≡ Some s → s.end ≡ s.at + 16348 → i < result → IsClear (claim ∷ []) s }
    {
        least_number(&self.places, near_from(claim), near_end(claim), bound)
    }

    /// The use of the cell at this offset.
    pub(crate) fn claim_at(&self, at: u32) -> Option<Claim>
        ensures { result ≡ claim_of at self.now }
    {
        match self.places.get(&u64::from(at)) {
            Some(place) => claim_if(self.claims.as_slice(), *place, at),
            None => None,
        }
    }

    /// Does a byte from here up to an end lie in what was used of a loose cell?
    pub(crate) fn overlaps(&self, at: u32, end: u64) -> bool
        ensures { result ≡ overlaps at end self.now }
    {
        match last_before(&self.loose, end) {
            Some((_, last)) => u64::from(at) < last,
            None => false,
        }
    }

    /// One use more, of a cell that wasn't used before. Without memory for it nothing changes.
    pub(crate) fn push(&mut self, claim: Claim) -> Result<(), AllocError>
        requires fresh { claim_of claim.at self.old ≡ None }
        requires long { claim.at < claim.end }
        requires apart { claim.loose ≡ true → overlaps claim.at claim.end self.old ≡ false }
        ensures ok { OnOk result (self.new ≡ self.old ++ claim ∷ []) }
        ensures err { OnErr result (self.new ≡ self.old) }
    {
        let place = count_of(&self.claims);
        put(&mut self.places, claim.at, place)?;
        put_loose(&mut self.loose, claim)?;
        append(&mut self.claims, &mut self.loose, claim)
    }

    /// Takes all uses back but the first ones.
    pub(crate) fn back_to(&mut self, len: usize)
        ensures { self.new ≡ take len self.old }
    {
        take_back(&mut self.claims, &mut self.loose, len);
    }
}
