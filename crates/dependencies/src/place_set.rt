//! A set of places, with the first of them at hand.

ghost use Rattle.std.specs.Prelude.{◌≡◌, ◌<◌, ◌≤◌, ℕ, ◌*◌, ◌+◌, ◌/◌, ◌^◌, length, replicate, slice_index, slice_set, position, IfOk, IfSome, false};
ghost use Rattle.dependencies.specs.Firsts.{AreNodesBut, leaf_of};

use std::alloc::{AllocError, Global};
use std::marker::Model;

/// What is at a leaf whose place is not in the set. No place is as great.
const NONE: usize = usize::MAX;

/// A set of the places below a number, seen as a truth value for each. Beside them stands a tree of
/// the first places: it is put right after a change, and its root answers, so that neither goes through a list.
#[derive(Drop)]
pub(crate) struct PlaceSet {
    set: Vec<bool>,
    firsts: Vec<usize>,
}

impl Model for PlaceSet {
    ghost use Rattle.std.specs.Prelude.{List, Bool};
    ghost use Rattle.dependencies.specs.Firsts.{IsTreeOf};

    ghost Value = { List Bool };

    ghost view = { λ a. a.set.items };

    ghost invariant = { λ a. IsTreeOf a.set.items a.firsts.items };
}

impl PlaceSet {
    /// None of that many places.
    pub(crate) fn new(alloc: Global, count: usize) -> Result<PlaceSet, AllocError>
        requires { count < 2 ^ 32 }
        ensures { IfOk result (λ s. s ≡ replicate count false) }
    {
        let set = vec![in alloc; false; count]?;
        let firsts = vec![in alloc; NONE; 2 * count]?;
        Ok(PlaceSet { set, firsts })
    }

    /// Puts a place into the set, or takes it out.
    pub(crate) fn put(&mut self, place: usize, is_in: bool)
        requires { place < length self.old }
        ensures { self.new ≡ slice_set self.old place is_in }
    {
        let count = self.set.len();
        self.set[place] = is_in;
        self.firsts[count + place] = leaf(is_in, place);
        settle(&mut self.firsts, count, place);
    }

    /// The first place of the set.
    pub(crate) fn first(&self) -> Option<usize>
        ensures place { result ≡ position (λ b. b) self.now }
        ensures within { IfSome result (λ at. at < length self.now) }
    {
        if self.set.is_empty() {
            return None;
        }
        let first = self.firsts[1];
        if first < self.set.len() {
            Some(first)
        } else {
            None
        }
    }
}

fn leaf(is_in: bool, place: usize) -> usize
    ensures { result ≡ leaf_of is_in place }
{
    if is_in { place } else { NONE }
}

/// Puts the nodes above a leaf right, from the lowest up.
fn settle(firsts: &mut [usize], count: usize, place: usize)
    requires len { length firsts.old ≡ 2 * count }
    requires place { place < count }
    requires nodes { AreNodesBut ((count + place) / 2) firsts.old count }
    ensures nodes { AreNodesBut 0 firsts.new count }
    ensures leaves { (k : ℕ) → count ≤ k → slice_index firsts.new k ≡ slice_index firsts.old k }
{
    let mut at = (count + place) / 2;
    while at > 0 {
        firsts[at] = firsts[2 * at].min(firsts[2 * at + 1]);
        at /= 2;
    }
}
