//! The names of one kind that entries depend on, and which of them are met.

ghost use Rattle.std.specs.Prelude.{◌≡◌, ◌<◌, ◌==◌, ◌++◌, ℕ, ◌+◌, true, false, All, length, map, count_by, replicate, slice_index, slice_set, IfOk, OnOk};
ghost use Rattle.start_model.specs.Demand.{member};
ghost use Rattle.dependencies.specs.Wants.{given, meets, names_given, owners_from, is_free};
ghost use Rattle.dependencies.specs.Waiting.{raised};

use crate::need::Need;
use crate::started::Started;
use crate::test_count::TestCount;
use nt_bytes::{Names, Units};
use std::alloc::{AllocError, Global};
use std::marker::Model;

/// Names of DependOnService, or of DependOnGroup.
#[derive(Clone, Copy, Drop)]
pub(crate) enum Kind {
    Service,
    Group,
}

/// The wants of a kind. Beside them stands for each entry how many of its own are not met.
#[derive(Drop)]
pub(crate) struct Wants {
    owners: Vec<usize>,
    met: Vec<bool>,
    unmet: Vec<usize>,
}

impl Model for Wants {
    ghost use Rattle.std.specs.Prelude.{length};
    ghost use Rattle.dependencies.specs.Wants.{WantsState, AreCounted};

    ghost Value = { WantsState };

    ghost view = { λ a. record { count = length a.unmet.items; owners = a.owners.items; met = a.met.items } };

    ghost invariant = { λ a. AreCounted a.owners.items a.met.items a.unmet.items };
}

impl Wants {
    /// Wants of these owners, of which none is met, where there are that many entries.
    pub(crate) fn new(alloc: Global, owners: Vec<usize>, count: usize) -> Result<Wants, AllocError>
        requires { All (λ o. o < count) owners.items }
        ensures { IfOk result (λ w. w ≡ record { count = count; owners = owners.items; met = replicate (length owners.items) false }) }
    {
        let met = vec![in alloc; false; owners.len()]?;
        let mut unmet = vec![in alloc; 0usize; count]?;
        count_each(owners.as_slice(), &mut unmet);
        Ok(Wants { owners, met, unmet })
    }

    /// Whether a want is met.
    pub(crate) fn is_met(&self, want: usize) -> bool
        requires { want < length self.now.met }
        ensures met { result ≡ member self.now.met want }
        ensures paired { length self.now.owners ≡ length self.now.met }
    {
        self.met[want]
    }

    /// The place of the entry that has a want.
    pub(crate) fn owner(&self, want: usize) -> usize
        requires { want < length self.now.met }
        ensures owner { result ≡ slice_index self.now.owners want }
        ensures within { result < self.now.count }
    {
        self.owners[want]
    }

    /// Whether each want of the entry at a place is met.
    pub(crate) fn is_free(&self, place: usize) -> bool
        requires { place < self.now.count }
        ensures { result ≡ is_free self.now place }
    {
        self.unmet[place] == 0
    }

    /// Marks a want as met.
    pub(crate) fn mark(&mut self, want: usize)
        requires { want < length self.old.met }
        ensures { self.new ≡ record self.old { met = slice_set self.old.met want true } }
    {
        if !self.is_met(want) {
            self.lower(want);
        }
    }

    /// Marks a want that is not met yet, so that its owner wants one name less.
    fn lower(&mut self, want: usize)
        requires within { want < length self.old.met }
        requires unmet { member self.old.met want ≡ false }
        ensures { self.new ≡ record self.old { met = slice_set self.old.met want true } }
    {
        self.met[want] = true;
        let owner = self.owners[want];
        self.unmet[owner] -= 1;
    }
}

/// Counts for each place how often it is an owner.
fn count_each(owners: &[usize], counts: &mut Vec<usize>)
    requires owned { All (λ o. o < length counts.old.items) owners.now }
    requires zero { (p : ℕ) → slice_index counts.old.items p ≡ 0 }
    ensures len { length counts.new.items ≡ length counts.old.items }
    ensures counted { (p : ℕ) → slice_index counts.new.items p ≡ count_by (λ o. o == p) owners.now }
{
    for owner in owners {
        counts[*owner] += 1;
    }
}

/// The names of a kind that the entries give, and the owner of each.
pub(crate) fn wanted(
    alloc: Global,
    needs: &[Need],
    kind: Kind,
) -> Result<(Names, Vec<usize>), AllocError>
    ensures names { IfOk result (λ w. w.0 ≡ names_given kind needs.now) }
    ensures owners { IfOk result (λ w. w.1.items ≡ owners_from kind 0 needs.now) }
{
    let mut names = Names::new(alloc);
    let mut owners = Vec::new(alloc);
    for place in 0..needs.len() {
        append(
            alloc,
            given(&needs[place], kind),
            place,
            &mut names,
            &mut owners,
        )?;
    }
    Ok((names, owners))
}

/// The names of a kind that an entry depends on.
fn given(need: &Need, kind: Kind) -> &[Units]
    ensures { result.now ≡ given kind need.now }
{
    match kind {
        Kind::Service => need.services.as_slice(),
        Kind::Group => need.groups.as_slice(),
    }
}

/// Puts the names of one entry after the others.
fn append(
    alloc: Global,
    given: &[Units],
    place: usize,
    names: &mut Names,
    owners: &mut Vec<usize>,
) -> Result<(), AllocError>
    ensures names { OnOk result (names.new ≡ names.old ++ given.now) }
    ensures owners { OnOk result (owners.new.items ≡ owners.old.items ++ map (λ g. place) given.now) }
{
    for name in given {
        names.push(name.copy(alloc)?)?;
        owners.push(place)?;
    }
    Ok(())
}

/// Tests each of the names by those that were started, and marks its want where they meet it.
pub(crate) fn test_all(
    names: &[Units],
    kind: Kind,
    started: &Started,
    wants: &mut Wants,
    tests: &mut TestCount,
)
    requires { wants.old.met ≡ replicate (length names.now) false }
    ensures wants { wants.new ≡ record wants.old { met = map (meets kind started.now) names.now } }
    ensures tests { tests.new ≡ raised tests.old (length names.now) }
{
    for want in 0..names.len() {
        if tests.test(is_met(&names[want], kind, started)) {
            wants.mark(want);
        }
    }
}

/// Whether those that were started meet a name.
fn is_met(name: &Units, kind: Kind, started: &Started) -> bool
    ensures { result ≡ meets kind started.now name.now }
{
    match kind {
        Kind::Service => started.has_name(name.as_slice()),
        Kind::Group => started.has_group(name.as_slice()),
    }
}
