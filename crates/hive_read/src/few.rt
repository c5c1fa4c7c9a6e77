//! Names that are in their cells, looked for in sequence.

ghost use Rattle.std.specs.Prelude.{◌≡◌, ℕ, List, [], map, not, ◌||◌, IfOk};
ghost use Rattle.std.specs.List.{list_any};
ghost use Rattle.std.specs.Option.{IfSome, IsNone};
ghost use Rattle.nt_bytes.specs.Folding.{folds_same};
ghost use Rattle.cell_forms.specs.Views.{name_of};
ghost use Rattle.hive_read.specs.Taken.{folded_name, folds_to, has_name};

use cell_forms::{StoredName, compare_stored};
use std::alloc::{AllocError, Global};
use std::marker::Model;

/// How many names are looked through in sequence.
const MOST: usize = 16;

/// Names as they came, and one that none of them comes at the end. Contracts see them folded.
#[derive(Drop)]
pub struct Few<'a> {
    names: Vec<StoredName<'a>>,
    greatest: StoredName<'a>,
}

impl<'a> Model for Few<'a> {
    ghost use Rattle.std.specs.Prelude.{ℕ, List, map};
    ghost use Rattle.cell_forms.specs.Views.{name_of};
    ghost use Rattle.hive_read.specs.Taken.{folded_name, NoneBehind};

    ghost Value = { List (List ℕ) };

    ghost view = { λ a. map folded_name a.names.items };

    ghost invariant = { λ a. NoneBehind (name_of a.greatest) (map folded_name a.names.items) };
}

// Does one of the names fold as this one?
fn has_same(names: &[StoredName<'_>], name: StoredName<'_>) -> bool
    ensures { result ≡ list_any (folds_to (name_of name.entry)) (map folded_name names.now) }
{
    let mut rest = names;
    'names: loop {
        let [other, more @ ..] = rest else {
            return false;
        };
        if compare_stored(name, *other).is_eq() {
            return true;
        }
        rest = more;
    }
}

impl<'a> Few<'a> {
    pub(crate) fn new(alloc: Global) -> Few<'a>
        ensures { result ≡ [] }
    {
        Few {
            names: Vec::new(alloc),
            greatest: StoredName {
                is_narrow: true,
                bytes: &[],
            },
        }
    }

    pub(crate) fn as_slice(&self) -> &[StoredName<'a>]
        ensures { map folded_name result.now ≡ self.now }
    {
        self.names.as_slice()
    }

    /// Adds a name where that is cheap: it is after them all, or they are few. False where one is there that
    /// folds alike, none where it was not added.
    pub(crate) fn add(&mut self, name: StoredName<'a>) -> Result<Option<bool>, AllocError>
        ensures fresh { IfOk result (λ r. IfSome r (λ fresh. fresh ≡ not (has_name self.old (name_of name.entry)))) }
        ensures added { IfOk result (λ r. IfSome r (λ _. (n : List ℕ) → has_name self.new n ≡ (has_name self.old n || folds_same n (name_of name.entry)))) }
        ensures left { IfOk result (λ r. IsNone r → self.new ≡ self.old) }
    {
        if compare_stored(name, self.greatest).is_gt() {
            self.names.push(name)?;
            self.greatest = name;
            return Ok(Some(true));
        }
        if self.names.len() >= MOST {
            return Ok(None);
        }
        if has_same(self.names.as_slice(), name) {
            return Ok(Some(false));
        }
        self.names.push(name)?;
        Ok(Some(true))
    }
}
