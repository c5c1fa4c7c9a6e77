//! Which names siblings, or the values of a key, have so far.

ghost use Rattle.std.specs.Prelude.{◌≡◌, ℕ, Bool, List, [], ◌++◌, map, not, ◌||◌, IfOk, OnOk};
ghost use Rattle.std.specs.List.{list_any};
ghost use Rattle.nt_bytes.specs.Folding.{folds_same};
ghost use Rattle.cell_forms.specs.Views.{name_of};
ghost use Rattle.hive_read.specs.Taken.{folded_name, has_name};

use crate::by_fold::ByFold;
use crate::few::Few;
use cell_forms::StoredName;
use std::alloc::{AllocError, Global};
use std::collections::BTreeSet;
use std::marker::Model;

/// Names where they are in their cells: while they rise, or are few, as they came, and else in the order of
/// their folded units. Contracts see them folded.
#[derive(Drop)]
pub struct Taken<'a> {
    many: BTreeSet<ByFold<'a>>,
    few: Few<'a>,
}

impl<'a> Model for Taken<'a> {
    ghost use Rattle.std.specs.Prelude.{ℕ, List, map, ◌++◌};
    ghost use Rattle.hive_read.specs.Taken.{folded_name};

    ghost Value = { List (List ℕ) };

    ghost view = { λ a. map (λ k. folded_name k.name) a.many.keys ++ a.few };
}

// Puts the names into the set.
fn gather<'a>(set: &mut BTreeSet<ByFold<'a>>, names: &[StoredName<'a>]) -> Result<(), AllocError>
    ensures { OnOk result ((p : List ℕ → Bool) → list_any p (map (λ k. folded_name k.name) set.new.keys)
        ≡ (list_any p (map (λ k. folded_name k.name) set.old.keys) || list_any p (map folded_name names.now))) }
{
    let mut rest = names;
    'names: loop {
        let [name, more @ ..] = rest else {
            return Ok(());
        };
        let _fresh = set.insert(ByFold { name: *name })?;
        rest = more;
    }
}

impl<'a> Taken<'a> {
    pub fn new(alloc: Global) -> Taken<'a>
        ensures { result ≡ [] }
    {
        Taken {
            many: BTreeSet::new(alloc),
            few: Few::new(alloc),
        }
    }

    /// Adds a name. False where one is there that folds alike.
    pub fn add(&mut self, alloc: Global, name: StoredName<'a>) -> Result<bool, AllocError>
        ensures fresh { IfOk result (λ fresh. fresh ≡ not (has_name self.old (name_of name.entry))) }
        ensures added { OnOk result ((n : List ℕ) → has_name self.new n ≡ (has_name self.old n || folds_same n (name_of name.entry))) }
    {
        if !self.many.is_empty() {
            return self.add_to_many(alloc, name);
        }
        match self.few.add(name)? {
            Some(fresh) => Ok(fresh),
            None => self.add_to_many(alloc, name),
        }
    }

    // The same, in the set, with all that are there.
    fn add_to_many(&mut self, alloc: Global, name: StoredName<'a>) -> Result<bool, AllocError>
        ensures fresh { IfOk result (λ fresh. fresh ≡ not (has_name self.old (name_of name.entry))) }
        ensures added { OnOk result ((n : List ℕ) → has_name self.new n ≡ (has_name self.old n || folds_same n (name_of name.entry))) }
    {
        gather(&mut self.many, self.few.as_slice())?;
        self.few = Few::new(alloc);
        let fresh = self.many.insert(ByFold { name })?;
        Ok(fresh)
    }
}
