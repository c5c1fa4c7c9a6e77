//! Which numbers name sets.

ghost use Rattle.std.specs.Prelude.{◌≡◌, ◌≤◌, ◌∷◌, [], ◌++◌, ℕ, map, IfSome, OnOk, IsTrue};
ghost use Rattle.hive_model.specs.Tree.{Tree, head, children};
ghost use Rattle.reg_tree.specs.Makes.{step_of};
ghost use Rattle.start_model.specs.Sets.{has_number, free_number_of, usable_numbers_of, deletions_of};
ghost use Rattle.select_keys.specs.Numbers.{with_number};

use crate::name::{set_number, set_path};
use crate::numbers::SelectNumbers;
use nt_bytes::Units;
use reg_tree::{Key, Steps, TreeStep};
use std::alloc::{AllocError, Global};
use std::marker::Model;

/// The numbers from 1 to 999 whose set is there. Contracts see the rising list of them. Takes no memory.
#[derive(Drop)]
pub struct TakenNumbers {
    /// Whether the set is there, by its number. The place of 0 stays as it is.
    marks: [bool; 1000],
}

impl Model for TakenNumbers {
    ghost use Rattle.std.specs.Prelude.{◌≡◌, ℕ, List, length};
    ghost use Rattle.select_keys.specs.Numbers.{numbers_marked};

    ghost Value = { List ℕ };

    ghost view = { λ a. numbers_marked a.marks };

    ghost invariant = { λ a. length a.marks ≡ 1000 };
}

impl TakenNumbers {
    /// No number.
    pub fn new() -> TakenNumbers
        ensures { result ≡ [] }
    {
        TakenNumbers {
            marks: [false; 1000],
        }
    }

    /// Puts this number among them, if it isn't there.
    pub fn add(&mut self, number: u32)
        requires low { 1 ≤ number }
        requires high { number ≤ 999 }
        ensures listed { self.new ≡ with_number number self.old }
        ensures has { (k : ℕ) → has_number self.new k ≡ has_number (number ∷ self.old) k }
    {
        self.marks[number as usize] = true;
    }

    /// Whether this number is among them.
    pub fn has(&self, number: u32) -> bool
        ensures is { result ≡ has_number self.now number }
        ensures within { IsTrue result → (1 ≤ number) × (number ≤ 999) }
    {
        let marks = &self.marks;
        if number < 1 || 999 < number {
            return false;
        }
        marks[number as usize]
    }

    /// The least number from 1 to 999 that is not among them.
    pub(crate) fn free_number(&self) -> Option<u32>
        ensures number { result ≡ free_number_of self.now }
        ensures within { IfSome result (λ n. n ≤ 999) }
    {
        for free in 1..1000 {
            if !self.has(free) {
                return Some(free);
            }
        }
        None
    }

    /// Puts the steps after that delete the sets which an old number names and no new one does, in rising
    /// number.
    pub(crate) fn delete_retired(
        &self,
        alloc: Global,
        old: SelectNumbers,
        new: SelectNumbers,
        steps: &mut Steps,
    ) -> Result<(), AllocError>
        ensures { OnOk result
            (map step_of steps.new ≡ map step_of steps.old ++ deletions_of self.now old new) }
    {
        let marks = &self.marks;
        for number in 1..1000 {
            if marks[number as usize] && old.gives_up(new, number) {
                let path = set_path(alloc, number)?;
                steps.push(TreeStep::DeleteKey { path })?;
            }
        }
        Ok(())
    }
}

/// The numbers of the sets of a tree, in one pass over the root's children.
pub fn sets_in(root: &Key) -> TakenNumbers
    ensures { result ≡ usable_numbers_of root.now }
{
    let mut taken = TakenNumbers::new();
    for child in root.subkeys() {
        if let Some(number) = set_number(child.name()) {
            taken.add(number);
        }
    }
    taken
}

/// The numbers of the sets of a tree whose root's children have these names, in order.
pub fn sets_named(names: &[Units]) -> TakenNumbers
    ensures { (t : Tree) → names.now ≡ map (λ key. (head key).name) (children t) → result ≡ usable_numbers_of t }
{
    let mut taken = TakenNumbers::new();
    for name in names {
        if let Some(number) = set_number(name.as_slice()) {
            taken.add(number);
        }
    }
    taken
}
